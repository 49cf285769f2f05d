//! What opening an order file answers.
use crate::frame::OrderFrame;
use order_file::contents::OrderFile;

/// The records of an order file and the frame that they describe.
#[derive(Debug, Drop)]
pub struct Opened {
    pub file: OrderFile,
    pub frame: OrderFrame,
}
