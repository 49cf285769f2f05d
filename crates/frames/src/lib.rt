//! Frames: sound lists of levels, and three of the four kinds of them that come with the product. A frame has
//! 0 to 24 levels, each number within its range, and its top stands at 500 dm or lower.
#![tactic(auto)]

pub mod denial;
pub mod frame;
pub mod kit;
pub mod levels;
mod listed;
mod stack;
mod storeys;
pub mod topping;
pub mod typed;
