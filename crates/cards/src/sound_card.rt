//! A card that has passed its check.
ghost use Rattle.std.specs.Prelude.{◌≡◌, false, is_some};
ghost use Rattle.cards.specs.Denials.{card_denial};

use crate::denial::CardDenial;
use crate::ranges::{first_out_of_range, is_period_above};
use records::card::Card;

/// A card with each field within its range and its period, where it is known, not above Tb.
#[derive(Clone, Copy, Debug, PartialEq, Eq)]
pub struct SoundCard {
    pub card: Card,
    pub ghost ok: { is_some (card_denial card) ≡ false },
}

impl SoundCard {
    ghost use Rattle.cards.specs.Fits.{CheckedWhen};
    ghost use Rattle.cards.specs.SoundCards.{Checked};

    /// The card, or the first thing that is wrong with it.
    pub fn new(card: &Card) -> Result<SoundCard, CardDenial>
        ensures answer { Checked (card_denial card.now) card.now result }
        ensures law { CheckedWhen card.now result }
    {
        if let Some(field) = first_out_of_range(card) {
            return Err(CardDenial::OutOfRange { field });
        }
        if is_period_above(card) {
            return Err(CardDenial::PeriodAboveTb);
        }
        Ok(SoundCard { card: *card })
    }
}
