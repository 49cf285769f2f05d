//! Why a card is refused.
ghost use Rattle.cards.specs.Denials.{denial_number, denial_place};

use records::denial::Denial;

/// What is wrong with a card.
#[derive(Clone, Copy, Debug, PartialEq, Eq)]
pub enum CardDenial {
    /// This field lies outside its range; no field before it does.
    OutOfRange { field: u32 },
    /// Every field lies within its range, but the period is above Tb.
    PeriodAboveTb,
}

impl Denial for CardDenial {
    ghost numbered = { denial_number };

    ghost placed = { denial_place };

    fn number(&self) -> u32 {
        match self {
            CardDenial::OutOfRange { .. } => 32,
            CardDenial::PeriodAboveTb => 33,
        }
    }

    fn place(&self) -> u32 {
        match *self {
            CardDenial::OutOfRange { field } => field,
            CardDenial::PeriodAboveTb => 7,
        }
    }
}
