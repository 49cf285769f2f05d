//! What a token says as a field of a record.
ghost use Rattle.std.specs.Prelude.{◌≡◌, Option};
ghost use Rattle.tokens.specs.Fields.{as_number, as_height, as_load, as_period, as_mark};
ghost use Rattle.tokens.specs.Said.{Said, meant};

use crate::marks::Mark;
use crate::number::{negative, number, positive};
use crate::token::Token;
use records::height::StoreyHeight;

/// A value that one word of a line is read as.
pub trait Field: Sized {
    ghost meaning: { Said → Option Self };

    /// What the token says, or nothing where it is no such field.
    fn of(token: Token<'_>) -> Option<Self>
        ensures { result ≡ meaning (meant token.entry) };
}

impl Field for u32 {
    ghost meaning = { as_number };

    #[inline(always)]
    fn of(token: Token<'_>) -> Option<Self> {
        match token {
            Token::Number(bytes) => number(bytes),
            _ => None,
        }
    }
}

impl Field for StoreyHeight {
    ghost meaning = { as_height };

    #[inline(always)]
    fn of(token: Token<'_>) -> Option<Self> {
        u32::of(token).map(StoreyHeight)
    }
}

impl Field for i32 {
    ghost meaning = { as_load };

    #[inline(always)]
    fn of(token: Token<'_>) -> Option<Self> {
        match token {
            Token::Number(bytes) => positive(bytes),
            Token::Minus(after) => negative(after),
            _ => None,
        }
    }
}

impl Field for Option<u32> {
    ghost meaning = { as_period };

    #[inline(always)]
    fn of(token: Token<'_>) -> Option<Self> {
        match token {
            Token::Number(bytes) => number(bytes).map(Some),
            Token::Minus([]) => Some(None),
            _ => None,
        }
    }
}

impl<M: Mark> Field for M {
    ghost meaning = { as_mark M.named };

    #[inline(always)]
    fn of(token: Token<'_>) -> Option<Self> {
        match token {
            Token::Mark(mark) => M::named(mark),
            _ => None,
        }
    }
}
