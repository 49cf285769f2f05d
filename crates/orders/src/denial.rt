//! Why an order refuses a call.
ghost use Rattle.orders.specs.Denials.{denial_number, denial_place};

use records::denial::Denial;

/// What is wrong, with the level that the call names.
#[derive(Clone, Copy, Debug, PartialEq, Eq)]
pub enum OrderDenial {
    /// The frame has no such level.
    NoSuchLevel { level: u32 },
    /// The load is 0, or beyond 5,000 tenths of a tonne either way.
    LoadOutOfRange { level: u32 },
    /// With the load the level would weigh less than 1 or more than 5,000 tenths of a tonne.
    WeightOutOfRange { level: u32 },
    /// As many lines stand as an order keeps.
    NoRoom { level: u32 },
    /// No line stands within the reach of strike.
    NothingToStrike,
}

impl Denial for OrderDenial {
    ghost numbered = { denial_number };

    ghost placed = { denial_place };

    fn number(&self) -> u32 {
        match *self {
            OrderDenial::NoSuchLevel { .. } => 21,
            OrderDenial::LoadOutOfRange { .. } => 22,
            OrderDenial::WeightOutOfRange { .. } => 23,
            OrderDenial::NoRoom { .. } => 24,
            OrderDenial::NothingToStrike => 25,
        }
    }

    fn place(&self) -> u32 {
        match *self {
            OrderDenial::NoSuchLevel { level }
            | OrderDenial::LoadOutOfRange { level }
            | OrderDenial::WeightOutOfRange { level }
            | OrderDenial::NoRoom { level } => level,
            OrderDenial::NothingToStrike => 0,
        }
    }
}
