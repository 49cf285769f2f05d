//! The states of an order, as types.
ghost use Rattle.std.specs.Prelude.{◌≡◌, ℕ};

/// Takes loads, and may be issued or tried.
#[derive(Clone, Copy, Debug, PartialEq, Eq)]
pub struct Open;

/// Takes loads until it is kept or abandoned.
#[derive(Clone, Copy, Debug, PartialEq, Eq)]
pub struct OnTrial {
    // How many lines stood when the trial began.
    pub(crate) bound: u32,
}

/// Takes no load until it is reopened. An issued order is a frame.
#[derive(Clone, Copy, Debug, PartialEq, Eq)]
pub struct Issued;

/// A state in which an order takes loads and strikes them.
pub trait Working {
    ghost bound_of: { Self → ℕ };

    /// How many of the oldest lines are out of the reach of strike.
    fn bound(&self) -> u32
        ensures { result ≡ bound_of self.now };
}

impl Working for Open {
    ghost bound_of = { λ _. 0 };

    fn bound(&self) -> u32 {
        0
    }
}

impl Working for OnTrial {
    ghost bound_of = { λ s. s.bound };

    fn bound(&self) -> u32 {
        self.bound
    }
}
