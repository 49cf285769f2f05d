//! The marks of the card, exact and in upper case.
ghost use Rattle.std.specs.Prelude.{◌≡◌, ℕ, List, Option};
ghost use Rattle.tokens.specs.Marks.{soil_named, group_named, walls_named};

use records::card::{Group, Soil, Walls};

/// A value that is written as one of a few marks.
pub trait Mark: Sized {
    ghost named: { List ℕ → Option Self };

    /// The value with this mark, or nothing where it is no such mark.
    fn named(mark: &[u8]) -> Option<Self>
        ensures { result ≡ named mark.now };
}

impl Mark for Soil {
    ghost named = { soil_named };

    fn named(mark: &[u8]) -> Option<Self> {
        match mark {
            b"I" => Some(Soil::I),
            b"II" => Some(Soil::II),
            b"III" => Some(Soil::III),
            _ => None,
        }
    }
}

impl Mark for Group {
    ghost named = { group_named };

    fn named(mark: &[u8]) -> Option<Self> {
        match mark {
            b"B" => Some(Group::B),
            b"A" => Some(Group::A),
            b"AA" => Some(Group::AA),
            _ => None,
        }
    }
}

impl Mark for Walls {
    ghost named = { walls_named };

    fn named(mark: &[u8]) -> Option<Self> {
        match mark {
            b"W" => Some(Walls::Tied),
            b"N" => Some(Walls::Detached),
            _ => None,
        }
    }
}
