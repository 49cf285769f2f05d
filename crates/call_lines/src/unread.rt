//! Why a text is not read.
ghost use Rattle.std.specs.Prelude.{◌≡◌};
ghost use Rattle.tokens.specs.Faults.{fault_line};
ghost use Rattle.call_lines.specs.declared.unread.Unread.TheVariants.{Unreadable, NoMemory};

use std::alloc::{AllocError, AllocFailed};
use tokens::fault::Fault;

/// Why there are no call lines.
#[derive(Clone, Copy, Debug, PartialEq, Eq)]
pub enum Unread {
    /// The line of this number is no call line.
    Unreadable { line: u32 },
    /// There is no memory for what the lines come to.
    NoMemory,
}

impl From<Fault> for Unread {
    ghost from_gives = { λ e r. r ≡ Unreadable (fault_line e) };

    fn from(fault: Fault) -> Unread {
        Unread::Unreadable { line: fault.line() }
    }
}

// Two impls, since a push that fails hands its value back, in an error of its own.
impl From<AllocError> for Unread {
    ghost from_gives = { λ _ r. r ≡ NoMemory };

    fn from(_error: AllocError) -> Unread {
        Unread::NoMemory
    }
}

impl<T: Drop> From<AllocFailed<T>> for Unread {
    ghost from_gives = { λ _ r. r ≡ NoMemory };

    fn from(_error: AllocFailed<T>) -> Unread {
        Unread::NoMemory
    }
}
