//! A run of bytes, cut in two at a byte.
ghost use Rattle.std.specs.Prelude.{◌≡◌};
ghost use Rattle.std.specs.Option.{option_map};
ghost use Rattle.tokens.specs.Cuts.{cut_at};

// What stands before the first `stop`, and what stands after it.
#[inline(always)]
pub(crate) fn cut(stop: u8, bytes: &[u8]) -> Option<(&[u8], &[u8])>
    ensures { option_map (λ p. (p.0.now, p.1.now)) result ≡ cut_at stop bytes.now }
{
    let n = bytes.iter().position(|b| *b == stop)?;
    Some((&bytes[..n], &bytes[n + 1..]))
}
