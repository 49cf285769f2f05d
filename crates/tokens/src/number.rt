//! Numbers: 0, or a digit 1 to 9 and up to eight more.
ghost use Rattle.std.specs.Prelude.{◌≡◌, ℕ, ◌^◌, ◌<◌, ◌≤◌, length, pos, IfSome};
ghost use Rattle.std.specs.Option.{option_map};
ghost use Rattle.tokens.specs.Numbers.{onward, number_of, negated};

// How many digits may follow the first, so that every number fits 30 bits.
const MORE_DIGITS: usize = 8;

// The number that some digits go on to write after the digit `start`.
#[tactic(auto, using(crate::proofs::Digits::ten_most))]
#[inline(always)]
fn more_digits(start: u8, digits: &[u8]) -> Option<u32>
    requires start_bound { start < 10 }
    requires digits_len_bound { length digits.now ≤ 8 }
    ensures value { result ≡ onward start digits.now }
    ensures bound { IfSome result (λ n. n < 10 ^ 9) }
{
    // A loop: in the closure of a `try_fold` the bound of `value` would not be known.
    let mut value = u32::from(start);
    for digit in digits {
        match digit {
            b'0'..=b'9' => value = value * 10 + u32::from(*digit - b'0'),
            _ => return None,
        }
    }
    Some(value)
}

// The number that some bytes write.
#[inline(always)]
pub(crate) fn number(bytes: &[u8]) -> Option<u32>
    ensures value { result ≡ number_of bytes.now }
    ensures bound { IfSome result (λ n. n < 10 ^ 9) }
{
    match bytes {
        [b'0'] => Some(0),
        [first @ b'1'..=b'9', rest @ ..] if rest.len() <= MORE_DIGITS => {
            more_digits(*first - b'0', rest)
        }
        _ => None,
    }
}

// A load with no sign.
#[inline(always)]
pub(crate) fn positive(bytes: &[u8]) -> Option<i32>
    ensures { result ≡ option_map pos (number_of bytes.now) }
{
    number(bytes).map(|n| n as i32)
}

// A load whose minus sign stands before `after`. There is no minus zero.
#[inline(always)]
pub(crate) fn negative(after: &[u8]) -> Option<i32>
    ensures { result ≡ negated after.now }
{
    match after {
        [b'1'..=b'9', ..] => number(after).map(|n| -(n as i32)),
        _ => None,
    }
}
