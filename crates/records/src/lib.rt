//! The plain records of the subject: what an order file holds, what a frame lists and what an order
//! books. They carry numbers as they were given; who takes them checks their ranges.
#![tactic(auto)]

pub mod card;
pub mod denial;
pub mod failure;
pub mod height;
pub mod kit_numbers;
pub mod level;
pub mod limits;
pub mod line;
