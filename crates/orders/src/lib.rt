//! Orders: loads that are hung on the levels of a frame and taken off again, tried, kept or abandoned, and issued.
#![tactic(auto)]

pub mod denial;
pub mod issued;
mod line_table;
mod loaded;
pub mod moves;
pub mod order;
pub mod state;
pub mod working;
