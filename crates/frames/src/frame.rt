//! What a frame is: a sound list of levels, told level by level.
ghost use Rattle.std.specs.Prelude.{◌≡◌, List, length};
ghost use Rattle.records.specs.declared.level.Level.{Level};
ghost use Rattle.frames.specs.Levels.{Sound, level_at, top_of, weight_of};
ghost use Rattle.frames.specs.Walks.{levels_left};

use crate::levels::Levels;
use records::height::LevelHeight;
use records::level::Level;

/// A list of levels, from the lowest up, that keeps a frame's limits.
pub trait Frame {
    ghost list: { Self → List Level };

    /// How many levels there are.
    fn count(&self) -> u32
        ensures { result ≡ length (list self.now) };

    /// Level k, counted from 1; nothing for 0 and beyond the last.
    fn level(&self, k: u32) -> Option<Level>
        ensures { result ≡ level_at (list self.now) k };

    /// The levels, from the lowest up.
    final fn levels(&self) -> Levels<'_, Self>
    where
        Self: Sized,
        ensures { levels_left list result ≡ list self.now }
    {
        Levels {
            frame: self,
            passed: 0,
        }
    }

    /// The height of the last level over the ground. The running sum never passes the limit, by the law.
    fn top(&self) -> LevelHeight
        ensures { result ≡ top_of (list self.now) }
    {
        let mut top = LevelHeight::ground();
        // By number here and below: `levels` wants a sized frame, and these serve a `&dyn Frame` too. As a
        // chain over the numbers, the bound of the sum was not proved.
        for k in 1..=self.count() {
            let level = self.level(k).unwrap();
            top = top.above(level.height).unwrap();
        }
        top
    }

    /// The weight of all levels, in tenths of a tonne.
    fn total_weight(&self) -> u32
        ensures { result ≡ weight_of (list self.now) }
    {
        let mut sum = 0;
        for k in 1..=self.count() {
            sum += self.level(k).unwrap().weight;
        }
        sum
    }

    ghost sound: { (f : Self) → Sound (list f) };
}
