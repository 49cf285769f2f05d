//! The sheet of a frame.
ghost use Rattle.std.specs.Prelude.{◌≡◌, ◌<◌, length};
ghost use Rattle.cards.specs.SoundCards.{Checked};
ghost use Rattle.seismic.specs.Refusals.{sheet_denial};

use crate::admit::admit;
use crate::denial::SheetDenial;
use crate::row::Row;
use crate::rows::write_rows;
use crate::storey::Storey;
use crate::storeys::shear_storeys;
use crate::verdict::Verdict;
use cards::sound_card::SoundCard;
use frames::frame::Frame;
use records::card::Card;
use records::limits::MOST_LEVELS;

/// What heads the sheet.
#[derive(Clone, Copy, Debug, PartialEq, Eq)]
pub struct Sheet {
    /// How many levels the frame has.
    pub levels: u32,
    /// Total weight, in tenths of a tonne.
    pub weight: u32,
    /// The base shear V0, in kgf.
    pub base_shear: u32,
    /// Whether every storey keeps its limits.
    pub verdict: Verdict,
}

impl Sheet {
    ghost use Rattle.seismic.specs.Sheets.{sheet_of, sheet_rows, Sheeted};
    ghost use Rattle.seismic.specs.Laws.{LawOf, Lawful};

    /// The sheet of a frame under a card. It writes a row a level into the first of `rows`, from below; where
    /// it is denied it writes none.
    #[tactic(auto, using(crate::proofs::SheetDenials::denied_when))]
    pub fn new<F: Frame>(frame: &F, card: &Card, rows: &mut [Row]) -> Result<Sheet, SheetDenial>
        ensures answer { Sheeted card.now (F.Frame.list frame.now) rows.old result rows.new }
        ensures law { LawOf card.now (F.Frame.list frame.now) result rows.new }
    {
        let levels = frame.count();
        let card = checked(levels, card, rows.len())?;
        Ok(Self::filled(frame, &card, &mut rows[..levels as usize]))
    }

    // The sheet of a frame with levels, and a row for each.
    fn filled<F: Frame>(frame: &F, card: &SoundCard, rows: &mut [Row]) -> Sheet
        requires some { 0 < length (F.Frame.list frame.now) }
        requires count { length rows.old ≡ length (F.Frame.list frame.now) }
        ensures sheet { result ≡ sheet_of card.now.card (F.Frame.list frame.now) }
        ensures rows { rows.new ≡ sheet_rows card.now.card (F.Frame.list frame.now) }
        ensures law { Lawful card.now.card (F.Frame.list frame.now) result rows.new }
    {
        let mut storeys = [Storey::default(); MOST_LEVELS as usize];
        Self::worked_out(frame, card, &mut storeys[..rows.len()], rows)
    }

    // The same, given room for its storeys.
    fn worked_out<F: Frame>(
        frame: &F,
        card: &SoundCard,
        storeys: &mut [Storey],
        rows: &mut [Row],
    ) -> Sheet
        requires some { 0 < length (F.Frame.list frame.now) }
        requires storeys { length storeys.old ≡ length (F.Frame.list frame.now) }
        requires rows { length rows.old ≡ length (F.Frame.list frame.now) }
        ensures sheet { result ≡ sheet_of card.now.card (F.Frame.list frame.now) }
        ensures rows { rows.new ≡ sheet_rows card.now.card (F.Frame.list frame.now) }
    {
        let base = shear_storeys(frame, card, storeys);
        let verdict = write_rows(card, storeys, rows);
        Sheet {
            levels: rows.len() as u32,
            weight: base.weight,
            base_shear: base.shear,
            verdict,
        }
    }
}

// The checked card, where nothing stands against a sheet of so many levels with this many rows.
fn checked(levels: u32, card: &Card, room: usize) -> Result<SoundCard, SheetDenial>
    ensures { Checked (sheet_denial levels card.now room) card.now result }
{
    let card = admit(levels, card)?;
    if room < levels as usize {
        return Err(SheetDenial::TooFewRows { needed: levels });
    }
    Ok(card)
}
