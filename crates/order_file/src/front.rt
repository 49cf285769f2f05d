//! An order file at the front of a longer text.
use crate::contents::OrderFile;

/// The records of the order file that a text begins with, and what follows its last line.
#[derive(Debug, Drop)]
pub struct Front<'a> {
    pub file: OrderFile,
    pub rest: &'a [u8],
}
