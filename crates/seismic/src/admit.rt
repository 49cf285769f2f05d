//! What stands against the shears of a frame's storeys.
ghost use Rattle.std.specs.Prelude.{◌≡◌};
ghost use Rattle.cards.specs.SoundCards.{Checked};
ghost use Rattle.seismic.specs.Refusals.{shear_denial};

use crate::denial::ShearDenial;
use cards::sound_card::SoundCard;
use records::card::Card;

// The checked card, where nothing stands against it, nor against so many levels.
pub(crate) fn admit(levels: u32, card: &Card) -> Result<SoundCard, ShearDenial>
    ensures { Checked (shear_denial levels card.now) card.now result }
{
    if levels == 0 {
        return Err(ShearDenial::NoLevels);
    }
    Ok(SoundCard::new(card)?)
}
