//! The end of a line.
ghost use Rattle.std.specs.Prelude.{◌≡◌, ℕ, ◌+◌, ◌≤◌, List, [], ◌∷◌, ◌++◌, length, drop, Some, decimal};
ghost use Rattle.std.specs.Fmt.{signed_decimal};
ghost use Rattle.pen.specs.Tails.{line_size, Before, CopiedTo};

use std::fmt;
use std::marker::Model;

/// A line has room for so many bytes: five numbers of 32 bits and five of 64, each with the byte after it.
pub const LINE_SIZE: usize = 5 * NUMBER_SIZE + 5 * LONG_NUMBER_SIZE;

/// No number of 32 bits is longer, with the byte after it.
pub const NUMBER_SIZE: usize = 11;

/// No number of 64 bits is, signed or not.
pub const LONG_NUMBER_SIZE: usize = 21;

/// The last bytes of a line. Each call puts a word before them, with the byte that ends the word.
#[derive(Drop)]
pub struct Tail {
    bytes: [u8; LINE_SIZE],
    start: usize,
}

impl Model for Tail {
    ghost Value = { List ℕ };

    ghost view = { λ tail. drop tail.start tail.bytes };

    ghost invariant = { λ tail. tail.start ≤ line_size };
}

impl Tail {
    /// A line of which nothing is written.
    #[inline]
    pub fn new() -> Tail
        ensures { result ≡ [] }
    {
        Tail {
            bytes: [0; LINE_SIZE],
            start: LINE_SIZE,
        }
    }

    /// Leaves nothing of what is written, for another line in the same room.
    #[inline]
    #[tactic(auto, using(crate::proofs::Digits::none_left))]
    pub fn clear(&mut self)
        ensures { self.new ≡ [] }
    {
        self.start = LINE_SIZE;
    }

    /// What is written.
    #[inline]
    pub fn bytes(&self) -> &[u8]
        ensures { result.now ≡ self.now }
    {
        &self.bytes[self.start..]
    }

    /// Puts a number before what is written, and `after` between them.
    #[inline]
    #[tactic(auto, using(std::proofs::lemmas::Grind::common_steps, crate::proofs::Digits::short_digits))]
    pub fn number(&mut self, n: u32, after: u8) -> Option<()>
        ensures put { Before (decimal n ++ after ∷ []) NUMBER_SIZE self.old result self.new }
        ensures short { length self.new ≤ length self.old + NUMBER_SIZE }
    {
        if self.start < NUMBER_SIZE {
            return None;
        }
        self.start = digits(n as u64, after, &mut self.bytes, self.start);
        Some(())
    }

    /// The same of a long number.
    #[inline]
    #[tactic(auto, using(std::proofs::lemmas::Grind::common_steps, crate::proofs::Digits::long_digits))]
    pub fn long_number(&mut self, n: u64, after: u8) -> Option<()>
        ensures put { Before (decimal n ++ after ∷ []) LONG_NUMBER_SIZE self.old result self.new }
        ensures short { length self.new ≤ length self.old + LONG_NUMBER_SIZE }
    {
        if self.start < LONG_NUMBER_SIZE {
            return None;
        }
        self.start = digits(n, after, &mut self.bytes, self.start);
        Some(())
    }

    /// The same of a number with its sign.
    #[inline]
    #[tactic(auto, using(std::proofs::lemmas::Grind::common_steps, crate::proofs::Digits::signed_digits))]
    pub fn signed_number(&mut self, n: i64, after: u8) -> Option<()>
        ensures put { Before (signed_decimal n ++ after ∷ []) LONG_NUMBER_SIZE self.old result self.new }
        ensures short { length self.new ≤ length self.old + LONG_NUMBER_SIZE }
    {
        if self.start < LONG_NUMBER_SIZE {
            return None;
        }
        self.start = signed_digits(n, after, &mut self.bytes, self.start);
        Some(())
    }

    /// The same of a word.
    #[inline]
    pub fn word(&mut self, word: &[u8], after: u8) -> Option<()>
        ensures put { Before (word.now ++ after ∷ []) (length word.now + 1) self.old result self.new }
        ensures short { length self.new ≤ length self.old + length word.now + 1 }
    {
        if self.start <= word.len() {
            return None;
        }
        self.start = letters(word, after, &mut self.bytes, self.start);
        Some(())
    }

    /// Copies what is written to the front of `out`, where it holds it, and answers how many bytes that is.
    #[inline]
    pub fn copy_to(&self, out: &mut [u8]) -> Option<usize>
        ensures { CopiedTo self.now out.old result out.new }
    {
        let line = self.bytes();
        if out.len() < line.len() {
            return None;
        }
        out[..line.len()].copy_from_slice(line);
        Some(line.len())
    }
}

impl fmt::Display for Tail {
    ghost output = { λ tail. Some tail };

    fn fmt<W: fmt::Write>(&self, f: &mut fmt::Formatter<W>) -> fmt::Result {
        match std::str::from_utf8(self.bytes()) {
            Ok(text) => f.write_str(text),
            // Words are bytes, which need not be a text.
            Err(_) => Err(fmt::Error),
        }
    }
}

// Writes a word before `end`, and `after` behind it, and answers where it starts.
#[inline(always)]
fn letters(word: &[u8], after: u8, bytes: &mut [u8], end: usize) -> usize
    requires room { length word.now + 1 ≤ end }
    requires within { end ≤ length bytes.old }
    ensures start { result + length word.now + 1 ≡ end }
    ensures written { drop result bytes.new ≡ word.now ++ after ∷ drop end bytes.old }
{
    let behind = end - 1;
    let start = behind - word.len();
    bytes[behind] = after;
    bytes[start..behind].copy_from_slice(word);
    start
}

// Writes the digits of a number before `end`, and `after` behind them, and answers where they start.
#[inline(always)]
fn digits(n: u64, after: u8, bytes: &mut [u8], end: usize) -> usize
    requires room { length (decimal n) + 1 ≤ end }
    requires within { end ≤ length bytes.old }
    ensures start { result + length (decimal n) + 1 ≡ end }
    ensures written { drop result bytes.new ≡ decimal n ++ after ∷ drop end bytes.old }
{
    bytes[end - 1] = after;
    itoa::write_digits(n, bytes, end - 1)
}

// The same of a number with its sign.
#[inline(always)]
fn signed_digits(n: i64, after: u8, bytes: &mut [u8], end: usize) -> usize
    requires room { 21 ≤ end }
    requires within { end ≤ length bytes.old }
    ensures start { result + length (signed_decimal n) + 1 ≡ end }
    ensures written { drop result bytes.new ≡ signed_decimal n ++ after ∷ drop end bytes.old }
{
    let start = digits(n.unsigned_abs(), after, bytes, end);
    if n >= 0 {
        return start;
    }
    bytes[start - 1] = b'-';
    start - 1
}
