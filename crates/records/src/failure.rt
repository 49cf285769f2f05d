//! Why there is no answer where memory may be wanting too.
ghost use Rattle.std.specs.Prelude.{◌≡◌};
ghost use Rattle.records.specs.Failures.{Widens};
ghost use Rattle.records.specs.declared.failure.Failure.TheVariants.{Denied, NoMemory};

use crate::denial::Denial;
use std::alloc::{AllocError, AllocFailed};

/// What was given is denied, or memory is wanting.
// An enum of its own, since `None` would not say that memory is wanting, and `?` makes either case.
#[derive(Clone, Copy, Debug, PartialEq, Eq)]
pub enum Failure<D> {
    Denied(D),
    NoMemory,
}

impl<D> Failure<D> {
    /// The same failure, with its denial as one of a wider kind.
    pub fn widen<E: From<D>>(self) -> Failure<E>
        ensures { Widens E.from_gives self result }
    {
        match self {
            Failure::Denied(inner) => Failure::Denied(E::from(inner)),
            Failure::NoMemory => Failure::NoMemory,
        }
    }
}

impl<D: Denial + Drop> From<D> for Failure<D> {
    ghost from_gives = { λ d r. r ≡ Denied d };

    fn from(denial: D) -> Failure<D> {
        Failure::Denied(denial)
    }
}

// Two impls, since a push that fails hands its value back, in an error of its own.
impl<D: Denial> From<AllocError> for Failure<D> {
    ghost from_gives = { λ _ r. r ≡ NoMemory };

    fn from(_error: AllocError) -> Failure<D> {
        Failure::NoMemory
    }
}

impl<D: Denial, T: Drop> From<AllocFailed<T>> for Failure<D> {
    ghost from_gives = { λ _ r. r ≡ NoMemory };

    fn from(_error: AllocFailed<T>) -> Failure<D> {
        Failure::NoMemory
    }
}
