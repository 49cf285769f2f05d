//! A level of a frame with the storey under it.
ghost use Rattle.std.specs.Prelude.{◌≡◌};
ghost use Rattle.records.specs.Ranges.{level_fits};

use crate::height::StoreyHeight;

/// Level k with storey k, which stands under it.
#[derive(Clone, Copy, Debug, Default, PartialEq, Eq)]
pub struct Level {
    /// Weight in tenths of a tonne.
    pub weight: u32,
    /// Height h of the storey.
    pub height: StoreyHeight,
    /// Stiffness K of the storey in kgf per mm.
    pub stiffness: u32,
    /// Mass centre across the direction of analysis, in dm from the edge of the plan.
    pub mass_centre: u32,
    /// Torsion centre of the storey, in dm from the same edge.
    pub torsion_centre: u32,
    /// Plan width b across the direction of analysis, in dm.
    pub width: u32,
}

impl Level {
    /// The heaviest level, in tenths of a tonne.
    pub const MOST_WEIGHT: u32 = 5_000;

    const LEAST_HEIGHT: u32 = 20;

    const MOST_HEIGHT: u32 = 60;

    const MOST_STIFFNESS: u32 = 1_000_000;

    const MOST_WIDTH: u32 = 1_000;

    /// Whether each of the six numbers lies within its range.
    pub fn is_in_range(&self) -> bool
        ensures { result ≡ level_fits self.now }
    {
        (1..=Self::MOST_WEIGHT).contains(&self.weight)
            && (Self::LEAST_HEIGHT..=Self::MOST_HEIGHT).contains(&self.height.0)
            && (1..=Self::MOST_STIFFNESS).contains(&self.stiffness)
            && self.mass_centre <= self.width
            && self.torsion_centre <= self.width
            && (1..=Self::MOST_WIDTH).contains(&self.width)
    }
}
