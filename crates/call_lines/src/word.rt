//! The word that a call line begins with.
ghost use Rattle.std.specs.Prelude.{◌≡◌};
ghost use Rattle.call_lines.specs.Words.{as_word, word_named};

use tokens::field::Field;
use tokens::token::Token;

/// What a line asks for.
#[derive(Clone, Copy, Debug)]
pub(crate) enum Word {
    Load,
    Strike,
    Standing,
    Trial,
    Keep,
    Abandon,
    Issue,
    Reopen,
    Release,
    Sheet,
    Axes,
    Card,
}

// The call's word among the marks; CARD is none, but a section word.
fn named(mark: &[u8]) -> Option<Word>
    ensures { result ≡ word_named mark.now }
{
    match mark {
        b"LOAD" => Some(Word::Load),
        b"STRIKE" => Some(Word::Strike),
        b"STANDING" => Some(Word::Standing),
        b"TRIAL" => Some(Word::Trial),
        b"KEEP" => Some(Word::Keep),
        b"ABANDON" => Some(Word::Abandon),
        b"ISSUE" => Some(Word::Issue),
        b"REOPEN" => Some(Word::Reopen),
        b"RELEASE" => Some(Word::Release),
        b"SHEET" => Some(Word::Sheet),
        b"AXES" => Some(Word::Axes),
        _ => None,
    }
}

impl Field for Word {
    ghost meaning = { as_word };

    fn of(token: Token<'_>) -> Option<Self> {
        match token {
            Token::Section(b"CARD") => Some(Word::Card),
            Token::Mark(mark) => named(mark),
            _ => None,
        }
    }
}
