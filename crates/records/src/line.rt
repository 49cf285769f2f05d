//! A line of an order.

/// A load hung on a level, or taken off it.
#[derive(Clone, Copy, Debug, PartialEq, Eq)]
pub struct Line {
    /// The level's number, from 1.
    pub level: u32,
    /// Tenths of a tonne; below 0 where weight is taken off.
    pub load: i32,
}
