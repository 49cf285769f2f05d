//! Levels that stand in a slice, from the lowest up.
ghost use Rattle.std.specs.Prelude.{◌≡◌};
ghost use Rattle.frames.specs.Levels.{level_at};

use records::level::Level;

// Level k, counted from 1; nothing for 0 and beyond the last.
pub(crate) fn level_of(levels: &[Level], k: u32) -> Option<Level>
    ensures { result ≡ level_at levels.now k }
{
    levels.get(k.checked_sub(1)? as usize).copied()
}
