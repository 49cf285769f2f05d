//! Why a text is not read.
ghost use Rattle.std.specs.Prelude.{◌≡◌};
ghost use Rattle.tokens.specs.Faults.{fault_number, fault_place, fault_line};

use records::denial::Denial;

/// What is wrong with a text, and on which line, counted from 1.
#[derive(Clone, Copy, Debug, PartialEq, Eq)]
pub enum Fault {
    /// The line is missing, or not laid out as it should be.
    Layout { line: u32 },
    /// The line is laid out well, and its count is out of its range.
    Count { line: u32 },
    /// Something stands here, after the last line.
    Surplus { line: u32 },
}

impl Fault {
    const LAYOUT: u32 = 41;

    const COUNT: u32 = 42;

    const SURPLUS: u32 = 43;

    // A fault is told by its line, and has no place.
    const NO_PLACE: u32 = 0;

    /// The faulty line's number.
    pub fn line(&self) -> u32
        ensures { result ≡ fault_line self.now }
    {
        match *self {
            Fault::Layout { line } | Fault::Count { line } | Fault::Surplus { line } => line,
        }
    }
}

impl Denial for Fault {
    ghost numbered = { fault_number };

    ghost placed = { fault_place };

    fn number(&self) -> u32 {
        match self {
            Fault::Layout { .. } => Fault::LAYOUT,
            Fault::Count { .. } => Fault::COUNT,
            Fault::Surplus { .. } => Fault::SURPLUS,
        }
    }

    fn place(&self) -> u32 {
        Fault::NO_PLACE
    }
}
