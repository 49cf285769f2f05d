//! A typed frame: the caller's table of levels.
ghost use Rattle.std.specs.Prelude.{◌≡◌, []};
ghost use Rattle.frames.specs.Levels.{Sound};
ghost use Rattle.frames.specs.Tables.{Checked, CheckedWhen, lay_denial};

use crate::denial::FrameDenial;
use crate::frame::Frame;
use crate::listed::level_of;
use crate::stack::Stack;
use records::failure::Failure;
use records::level::Level;
use records::limits::MOST_LEVELS;
use std::alloc::Global;

/// The levels of the table that was laid last, kept in memory of `heap`.
#[derive(Debug, Drop)]
pub struct Typed {
    levels: Vec<Level>,
    heap: Global,
    pub ghost ok: { Sound levels.items },
}

impl Typed {
    ghost use Rattle.frames.specs.TypedLists.{Laid, LaidWhen};

    /// A frame with no level, that takes memory from `heap`.
    pub fn new(heap: Global) -> Typed
        ensures { ⟦<Typed as Frame>⟧.list result ≡ [] }
    {
        Typed {
            levels: Vec::new(heap),
            heap,
        }
    }

    /// The frame with the table for its list; where it is refused the list stays as it was.
    pub fn lay(&mut self, table: &[Level]) -> Result<(), Failure<FrameDenial>>
        ensures answer { Laid table.now (⟦<Typed as Frame>⟧.list self.old) (⟦<Typed as Frame>⟧.list self.new) result }
        ensures law { LaidWhen table.now result }
    {
        check(table)?;
        self.levels = Vec::from_slice(self.heap, table)?;
        Ok(())
    }
}

// The count first, then level by level from below.
fn check(table: &[Level]) -> Result<(), FrameDenial>
    ensures answer { Checked (lay_denial table.now) result }
    ensures law { CheckedWhen table.now result }
{
    if table.len() > MOST_LEVELS as usize {
        return Err(FrameDenial::TooManyLevels {
            level: MOST_LEVELS + 1,
        });
    }
    let mut stack = Stack::ground();
    for level in table {
        stack = stack.with(level)?;
    }
    Ok(())
}

impl Frame for Typed {
    ghost use Rattle.frames.specs.TypedLists.{typed_list};

    ghost list = { typed_list };

    ghost sound = { λ t. t.ok };

    fn count(&self) -> u32 {
        self.levels.len() as u32
    }

    fn level(&self, k: u32) -> Option<Level> {
        level_of(&self.levels, k)
    }
}
