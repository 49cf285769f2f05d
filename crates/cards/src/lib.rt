//! The engineer's card: its check, and the base shear that it gives a weight.
#![tactic(auto)]

pub mod denial;
mod ranges;
mod shear;
pub mod sound_card;
