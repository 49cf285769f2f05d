//! The eight numbers of a kit.
ghost use Rattle.std.specs.Prelude.{◌≡◌};
ghost use Rattle.records.specs.Kits.{weighing, floor, roof};

use crate::height::StoreyHeight;
use crate::level::Level;

/// Levels that are alike, except that the last has the roof weight.
#[derive(Clone, Copy, Debug, PartialEq, Eq)]
pub struct KitNumbers {
    /// How many levels.
    pub levels: u32,
    /// Weight of each level but the last, in tenths of a tonne.
    pub floor_weight: u32,
    /// Weight of the last level, in tenths of a tonne.
    pub roof_weight: u32,
    /// The other five numbers are those of every level.
    // Flat, as a level's are: a struct of the five would only lengthen the name of each.
    pub height: StoreyHeight,
    pub stiffness: u32,
    pub mass_centre: u32,
    pub torsion_centre: u32,
    pub width: u32,
}

impl KitNumbers {
    /// Each level but the last.
    pub fn floor(&self) -> Level
        ensures { result ≡ floor self.now }
    {
        self.level_of(self.floor_weight)
    }

    /// The last level.
    pub fn roof(&self) -> Level
        ensures { result ≡ roof self.now }
    {
        self.level_of(self.roof_weight)
    }

    // A level of the kit, with this weight.
    fn level_of(&self, weight: u32) -> Level
        ensures { result ≡ weighing self.now weight }
    {
        Level {
            weight,
            height: self.height,
            stiffness: self.stiffness,
            mass_centre: self.mass_centre,
            torsion_centre: self.torsion_centre,
            width: self.width,
        }
    }
}
