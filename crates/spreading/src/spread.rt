//! Spreading an amount over records by their shares.
ghost use Rattle.std.specs.Prelude.{◌≡◌, ◌*◌, ◌^◌, ◌<◌, ◌≤◌, OnOk, cond, sum_by, Some, None};
ghost use Rattle.std.specs.Int.{div_ceil};
ghost use Rattle.spreading.specs.Spreads.{spread_over, IsSpread};
ghost use Rattle.spreading.specs.Refusals.{fits, refusal, Spreadable, SpreadOrNot};

use crate::refusal::Unspread;
use crate::share::Share;

/// Spreads the amount over the records by their shares, or leaves them as they were.
pub fn spread<R: Share>(amount: u32, records: &mut [R]) -> Result<(), Unspread>
    ensures answer { SpreadOrNot R.share_of R.taken amount records.old result records.new }
    ensures law { OnOk result (IsSpread R.share_of R.part_of amount records.old records.new) }
{
    let total = spreadable(amount, records)?;
    spread_by(amount, total, records);
    Ok(())
}

// The total of the shares, where the amount can be spread by them.
fn spreadable<R: Share>(amount: u32, records: &[R]) -> Result<u64, Unspread>
    ensures { Spreadable (refusal amount (sum_by R.share_of records.now)) (sum_by R.share_of records.now) result }
{
    let total = total(records).ok_or(Unspread::TooLarge)?;
    if total == 0 {
        return Err(Unspread::NoShares);
    }
    total.checked_mul(amount as u64).ok_or(Unspread::TooLarge)?;
    Ok(total)
}

// The total of the shares, where 64 bits hold it.
fn total<R: Share>(records: &[R]) -> Option<u64>
    ensures { result ≡ cond (fits (sum_by R.share_of records.now)) (Some (sum_by R.share_of records.now)) None }
{
    let mut sum = 0u64;
    for record in records {
        sum = sum.checked_add(record.share())?;
    }
    Some(sum)
}

// Spreads the amount over the records, whose shares have this total.
#[tactic(auto, using(crate::proofs::Tails::one_back))]
fn spread_by<R: Share>(amount: u32, total: u64, records: &mut [R])
    requires some { 0 < total }
    requires whole { total ≡ sum_by R.share_of records.old }
    requires fits { amount * total < 2 ^ 64 }
    ensures { records.new ≡ spread_over R.share_of R.taken amount records.old }
{
    let mut shares = 0;
    let mut above = 0;
    // By index: after a loop over `iter_mut().rev()` nothing would be known of the records.
    for i in (0..records.len()).rev() {
        shares += records[i].share();
        let tail = tail_of(amount, shares, total);
        records[i].take(tail, tail - above);
        above = tail;
    }
}

// What falls to so many shares of the total, rounded up.
fn tail_of(amount: u32, shares: u64, total: u64) -> u32
    requires some { 0 < total }
    requires part { shares ≤ total }
    requires fits { amount * total < 2 ^ 64 }
    ensures { result ≡ div_ceil (amount * shares) total }
{
    (amount as u64 * shares).div_ceil(total) as u32
}
