//! How many levels there may be.

/// Levels of a frame.
pub const MOST_LEVELS: u32 = 24;

/// Storeys that are put on a kit, or on any frame, as a topping's own.
pub const MOST_STOREYS: usize = 8;
