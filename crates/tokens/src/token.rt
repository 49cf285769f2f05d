//! Words, told by what they are.
ghost use Rattle.std.specs.Prelude.{◌≡◌};
ghost use Rattle.tokens.specs.Said.{meant, is_section, as_section, told};

/// What kind of word stands in a line; what it says is left to the field that reads it.
#[derive(Clone, Copy, Debug, PartialEq, Eq)]
pub enum Token<'a> {
    /// One of the four section words.
    Section(&'a [u8]),
    /// A word that begins with a digit.
    Number(&'a [u8]),
    /// What follows a minus sign.
    Minus(&'a [u8]),
    /// Any other word.
    Mark(&'a [u8]),
}

/// A word of a text, told with its line.
#[derive(Clone, Copy, Debug, PartialEq, Eq)]
pub struct Word<'a> {
    /// The number of its line in the text.
    pub line: u32,
    pub token: Token<'a>,
}

// Whether it is KIT, LEVELS, LOADS or CARD. The project takes section words, signs and digits by slice
// patterns, first byte and rest.
#[inline(always)]
fn names_section(word: &[u8]) -> bool
    ensures { result ≡ is_section word.now }
{
    match word {
        [b'K', rest @ ..] => matches!(rest, b"IT"),
        [b'L', rest @ ..] => matches!(rest, b"EVELS" | b"OADS"),
        [b'C', rest @ ..] => matches!(rest, b"ARD"),
        _ => false,
    }
}

// What a word is.
#[inline(always)]
pub(crate) fn token_of(word: &[u8]) -> Token<'_>
    ensures { meant result ≡ told word.now }
{
    match word {
        [b'-', after @ ..] => Token::Minus(after),
        [b'0'..=b'9', ..] => Token::Number(word),
        _ if names_section(word) => Token::Section(word),
        _ => Token::Mark(word),
    }
}

// Whether a token opens the section of this name.
#[inline(always)]
pub(crate) fn opens(token: Token<'_>, name: &[u8]) -> bool
    ensures { result ≡ as_section name.now (meant token.entry) }
{
    matches!(token, Token::Section(bytes) if bytes == name)
}
