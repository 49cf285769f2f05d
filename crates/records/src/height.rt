//! The two heights of the subject, both in decimetres, that are never taken for one another.
ghost use Rattle.std.specs.Prelude.{◌≡◌, Some, decimal};
ghost use Rattle.records.specs.Heights.{ground, raised};

use std::fmt;

/// The height h of one storey, from the level below to its own.
#[derive(Clone, Copy, Debug, Default, PartialEq, Eq)]
pub struct StoreyHeight(pub u32);

/// The height H of a level over the ground: the sum of the storey heights up to it.
/// Only that running sum makes one.
#[derive(Clone, Copy, Debug, Default, PartialEq, Eq)]
pub struct LevelHeight(u32);

impl LevelHeight {
    /// No level stands higher than this.
    pub const LIMIT: u32 = 500;

    /// Where the lowest storey stands.
    pub fn ground() -> LevelHeight
        ensures { result ≡ ground }
    {
        LevelHeight(0)
    }

    /// The height one storey further up, or nothing where it would pass the limit.
    pub fn above(self, storey: StoreyHeight) -> Option<LevelHeight>
        ensures { result ≡ raised self storey }
    {
        self.0
            .checked_add(storey.0)
            .filter(|dm| *dm <= Self::LIMIT)
            .map(LevelHeight)
    }

    /// The height in decimetres.
    pub fn decimetres(self) -> u32
        ensures { result ≡ self.0 }
    {
        let LevelHeight(dm) = self;
        dm
    }
}

impl fmt::Display for LevelHeight {
    ghost output = { λ height. Some (decimal height.0) };

    fn fmt<W: fmt::Write>(&self, f: &mut fmt::Formatter<W>) -> fmt::Result {
        write!(f, "{}", self.0)
    }
}
