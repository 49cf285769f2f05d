//! A row of the sheet.

use records::height::LevelHeight;

/// What the sheet tells of a level and the storey under it.
#[derive(Clone, Copy, Debug, Default, PartialEq, Eq)]
pub struct Row {
    /// The level's number, from 1.
    pub level: u32,
    /// Weight of the level, in tenths of a tonne.
    pub weight: u32,
    /// The level's height H.
    pub height: LevelHeight,
    /// The force F at the level, in kgf.
    pub force: u32,
    /// The storey's shear V, in kgf.
    pub shear: u32,
    /// The storey's own movement u, in hundredths of a mm.
    pub drift: u64,
    /// The level's movement x over the ground, in hundredths of a mm.
    pub displacement: u64,
    /// The greater torsional moment Ma, in kgf·cm.
    pub ma: u64,
    /// The lesser torsional moment Mb, in kgf·cm.
    pub mb: i64,
    /// The separation s from the boundary, in hundredths of a mm.
    pub separation: u64,
}
