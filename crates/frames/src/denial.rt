//! Why a frame refuses what it is given.
ghost use Rattle.frames.specs.Denials.{denial_number, denial_place};

use records::denial::Denial;

/// What is wrong, with the level that it is wrong at.
#[derive(Clone, Copy, Debug, PartialEq, Eq)]
pub enum FrameDenial {
    /// More levels than a frame may have, or a ninth storey of a topping; the first level that is too many.
    TooManyLevels { level: u32 },
    /// A number of this level lies outside its range.
    OutOfRange { level: u32 },
    /// This level would stand above the limit.
    TooHigh { level: u32 },
    /// A number of a kit lies outside its range.
    KitOutOfRange,
    /// The last level of a kit would stand above the limit.
    KitTooHigh,
}

impl Denial for FrameDenial {
    ghost numbered = { denial_number };

    ghost placed = { denial_place };

    fn number(&self) -> u32 {
        match *self {
            FrameDenial::TooManyLevels { .. } => 11,
            FrameDenial::OutOfRange { .. } | FrameDenial::KitOutOfRange => 12,
            FrameDenial::TooHigh { .. } | FrameDenial::KitTooHigh => 13,
        }
    }

    fn place(&self) -> u32 {
        match *self {
            FrameDenial::TooManyLevels { level }
            | FrameDenial::OutOfRange { level }
            | FrameDenial::TooHigh { level } => level,
            FrameDenial::KitOutOfRange | FrameDenial::KitTooHigh => 0,
        }
    }
}
