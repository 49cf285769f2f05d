//! Spreading that nothing stands against.
ghost use Rattle.std.specs.Prelude.{◌≡◌, ◌*◌, ◌^◌, ◌<◌, sum_by};
ghost use Rattle.spreading.specs.Spreads.{spread_over, IsSpread};

use spreading::share::Share;
use spreading::spread::spread;

// Spreads the amount over the records by their shares.
#[tactic(auto, using(crate::proofs::Spreadable::may_spread))]
pub(crate) fn spread_out<R: Share>(amount: u32, records: &mut [R])
    requires some { 0 < sum_by R.share_of records.old }
    requires few { sum_by R.share_of records.old < 2 ^ 64 }
    requires fits { amount * sum_by R.share_of records.old < 2 ^ 64 }
    ensures answer { records.new ≡ spread_over R.share_of R.taken amount records.old }
    ensures law { IsSpread R.share_of R.part_of amount records.old records.new }
{
    spread(amount, records).unwrap();
}
