//! Lines of text, written from their last byte to their first: so a number's digits stand where they belong at once.
#![tactic(auto)]

pub mod tail;
