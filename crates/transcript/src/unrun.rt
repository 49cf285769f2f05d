//! Why no call is made.
ghost use Rattle.std.specs.Prelude.{◌≡◌};
ghost use Rattle.transcript.specs.Unruns.{of_front, of_frame, of_lines};

use call_lines::unread::Unread;
use order_frame::refusal::Refusal;
use records::failure::Failure;
use tokens::fault::Fault;

#[derive(Clone, Copy, Debug, PartialEq, Eq)]
pub(crate) enum Unrun {
    // The order file is faulty, or its frame is denied.
    Refused(Refusal),
    // The line of this number is no call line.
    Unreadable { line: u32 },
    NoMemory,
}

impl From<Failure<Fault>> for Unrun {
    ghost from_gives = { λ failure r. r ≡ of_front failure };

    fn from(failure: Failure<Fault>) -> Unrun {
        match failure {
            Failure::Denied(fault) => Unrun::Refused(Refusal::Faulty(fault)),
            Failure::NoMemory => Unrun::NoMemory,
        }
    }
}

impl From<Failure<Refusal>> for Unrun {
    ghost from_gives = { λ failure r. r ≡ of_frame failure };

    fn from(failure: Failure<Refusal>) -> Unrun {
        match failure {
            Failure::Denied(refusal) => Unrun::Refused(refusal),
            Failure::NoMemory => Unrun::NoMemory,
        }
    }
}

impl From<Unread> for Unrun {
    ghost from_gives = { λ unread r. r ≡ of_lines unread };

    fn from(unread: Unread) -> Unrun {
        match unread {
            Unread::Unreadable { line } => Unrun::Unreadable { line },
            Unread::NoMemory => Unrun::NoMemory,
        }
    }
}
