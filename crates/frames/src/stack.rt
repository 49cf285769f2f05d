//! What stands so far, level on level, and when one more may come onto it.
ghost use Rattle.std.specs.Prelude.{◌≡◌, ◌+◌, ◌≤◌, true, length};
ghost use Rattle.records.specs.Ranges.{level_fits};
ghost use Rattle.frames.specs.Levels.{height_of, top_of};
ghost use Rattle.frames.specs.OwnStoreys.{own_storeys};
ghost use Rattle.frames.specs.Steps.{standing};

use crate::denial::FrameDenial;
use crate::frame::Frame;
use crate::storeys::Storeys;
use records::height::LevelHeight;
use records::level::Level;
use records::limits::MOST_LEVELS;

// So many levels, and the height of the last of them.
#[derive(Clone, Copy, Debug, PartialEq, Eq)]
pub(crate) struct Stack {
    pub(crate) levels: u32,
    pub(crate) top: LevelHeight,
    ghost few: { levels ≤ 24 },
}

impl Stack {
    ghost use Rattle.frames.specs.Steppings.{Stepped, Stood};

    // No level as yet.
    pub(crate) fn ground() -> Stack
        ensures levels { result.levels ≡ 0 }
        ensures top { result.top.0 ≡ 0 }
    {
        Stack {
            levels: 0,
            top: LevelHeight::ground(),
        }
    }

    // The levels of a frame.
    pub(crate) fn of<F: Frame>(frame: &F) -> Stack
        ensures levels { result.levels ≡ length (F.Frame.list frame.now) }
        ensures top { result.top ≡ top_of (F.Frame.list frame.now) }
    {
        Stack {
            levels: frame.count(),
            top: frame.top(),
        }
    }

    // One level more.
    pub(crate) fn with(self, level: &Level) -> Result<Stack, FrameDenial>
        ensures { Stepped self level.now result }
    {
        let number = self.levels + 1;
        if self.levels >= MOST_LEVELS {
            return Err(FrameDenial::TooManyLevels { level: number });
        }
        if !level.is_in_range() {
            return Err(FrameDenial::OutOfRange { level: number });
        }
        let top = self
            .top
            .above(level.height)
            .ok_or(FrameDenial::TooHigh { level: number })?;
        Ok(Stack {
            levels: number,
            top,
        })
    }

    // The same of a storey that is in range: nothing but the count and the height can keep it from standing.
    fn with_storey(self, storey: &Level) -> Option<Stack>
        requires { level_fits storey.now ≡ true }
        ensures { Stood self storey.now result }
    {
        if self.levels == MOST_LEVELS {
            return None;
        }
        let top = self.top.above(storey.height)?;
        let levels = self.levels + 1;
        Some(Stack { levels, top })
    }

    // With those of some storeys that stand on it, from the lowest up.
    pub(crate) fn with_standing(self, storeys: &Storeys) -> Stack
        ensures levels { result.levels ≡ self.levels + length (standing self.levels self.top.0 (own_storeys storeys.now)) }
        ensures top { result.top.0 ≡ self.top.0 + height_of (standing self.levels self.top.0 (own_storeys storeys.now)) }
    {
        let mut stack = self;
        for storey in storeys.levels() {
            let Some(higher) = stack.with_storey(storey) else {
                return stack;
            };
            stack = higher;
        }
        stack
    }
}
