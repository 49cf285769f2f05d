//! The rows of a sheet, and its verdict.
ghost use Rattle.std.specs.Prelude.{◌≡◌, length};
ghost use Rattle.seismic.specs.Bounds.{AreBounded};
ghost use Rattle.seismic.specs.Rows.{rows_of};
ghost use Rattle.seismic.specs.Verdicts.{verdict_of};

use crate::row::Row;
use crate::storey::Storey;
use crate::verdict::Verdict;
use crate::walk::Walk;
use cards::sound_card::SoundCard;

// Writes a row for each storey, and judges them, from below.
#[tactic(auto, using(crate::proofs::Bounds::moments_fit, crate::proofs::Bounds::weights_fit))]
pub(crate) fn write_rows(card: &SoundCard, storeys: &[Storey], rows: &mut [Row]) -> Verdict
    requires bounded { AreBounded storeys.now }
    requires count { length rows.old ≡ length storeys.now }
    ensures rows { rows.new ≡ rows_of card.now.card storeys.now }
    ensures verdict { result ≡ verdict_of card.now.card storeys.now }
{
    let mut walk = Walk::from_ground(storeys);
    let mut verdict = Verdict::Pass;
    // The storeys go by index: after a zip with `iter_mut` nothing would be known of the rows.
    for (i, row) in rows.iter_mut().enumerate() {
        let response = walk.pass(card, &storeys[i]);
        *row = response.row(card);
        verdict = verdict.or_at(response.number, response.first_broken(card));
    }
    verdict
}
