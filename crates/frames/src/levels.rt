//! The levels of a frame, one after another.
ghost use Rattle.std.specs.Prelude.{◌≤◌};
ghost use Rattle.std.specs.Iterator.{YieldsFirst, item_count};

use crate::frame::Frame;
use records::level::Level;

/// What is left of a frame's levels, from the lowest up.
#[derive(Debug, Drop)]
pub struct Levels<'a, F> {
    pub(crate) frame: &'a F,
    pub(crate) passed: u32,
    ghost few: { passed ≤ 24 },
}

impl<'a, F: Frame> Iterator for Levels<'a, F> {
    type Item = Level;

    ghost use Rattle.frames.specs.Walks.{levels_left};

    ghost next_gives = { YieldsFirst (levels_left F.Frame.list) };

    ghost remaining = { item_count (levels_left F.Frame.list) };

    fn next(&mut self) -> Option<Level> {
        let level = self.frame.level(self.passed + 1)?;
        self.passed += 1;
        Some(level)
    }
}
