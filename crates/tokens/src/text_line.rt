//! The words of a line, taken from the front one by one.
ghost use Rattle.std.specs.Prelude.{◌≡◌, true, false, IfSome, IfOk, MatchResult};
ghost use Rattle.std.specs.Option.{option_map};
ghost use Rattle.tokens.specs.Cuts.{cut_at, first_word, later_words};
ghost use Rattle.tokens.specs.declared.fault.Fault.TheVariants.{Layout};
ghost use Rattle.tokens.specs.TextLines.{Took, after_word, after_heading, first_line, next_word, next_field, heading_of, said, left, numbered, none_left};

use crate::cut::cut;
use crate::fault::Fault;
use crate::field::Field;
use crate::token::{Word, opens, token_of};

/// What is left of a line of a text: words with one space between them.
#[derive(Clone, Copy, Debug, PartialEq, Eq)]
pub struct TextLine<'a> {
    line: u32,
    // Nothing once the last word is taken; an empty line still has one word, an empty one.
    rest: Option<&'a [u8]>,
}

impl<'a> TextLine<'a> {
    /// The first line of a text, which has this number, and what stands after its byte 10; nothing
    /// where no byte 10 ends it.
    #[inline(always)]
    pub fn first_of(text: &'a [u8], number: u32) -> Option<(TextLine<'a>, &'a [u8])>
        ensures parts { option_map (λ p. (left p.0, p.1.now)) result ≡ first_line text.now }
        ensures number { IfSome result (λ p. numbered p.0 ≡ number) }
    {
        let (bytes, after) = cut(b'\n', text)?;
        let words = TextLine {
            line: number,
            rest: Some(bytes),
        };
        Some((words, after))
    }

    /// The line's number in the text.
    pub fn number(&self) -> u32
        ensures { result ≡ numbered self.now }
    {
        self.line
    }

    /// Whether no word is left.
    pub fn is_over(&self) -> bool
        ensures { result ≡ none_left (left self.now) }
    {
        self.rest.is_none()
    }

    /// A fault of layout where words are left.
    pub fn end(&self) -> Result<(), Fault>
        ensures { MatchResult result (λ _. none_left (left self.now) ≡ true) (λ e. (none_left (left self.now) ≡ false) × (e ≡ Layout (numbered self.now))) }
    {
        if self.is_over() {
            Ok(())
        } else {
            Err(Fault::Layout {
                line: self.number(),
            })
        }
    }

    // The next word. Here and below a clause says that the number stays the same: an invariant of the
    // type cannot tell of before and after.
    #[inline(always)]
    fn word(&mut self) -> Result<Word<'a>, Fault>
        ensures line { IfOk result (λ w. w.line ≡ numbered self.old) }
        ensures took { Took said result (left self.new) (numbered self.old) (next_word (left self.old)) }
        ensures rest { left self.new ≡ after_word (left self.old) }
        ensures same { numbered self.new ≡ numbered self.old }
    {
        let line = self.number();
        let bytes = self.rest.ok_or(Fault::Layout { line })?;
        let (word, after) = split_word(bytes);
        self.rest = after;
        let token = token_of(word);
        Ok(Word { line, token })
    }

    /// The next word, read as a field; a fault of layout where it is none.
    #[inline(always)]
    pub fn field<F: Field>(&mut self) -> Result<F, Fault>
        ensures took { Took (λ x. x) result (left self.new) (numbered self.old) (next_field F.meaning (left self.old)) }
        ensures rest { left self.new ≡ after_word (left self.old) }
        ensures same { numbered self.new ≡ numbered self.old }
    {
        let word = self.word()?;
        F::of(word.token).ok_or(Fault::Layout { line: word.line })
    }

    /// The count that follows the section word `name`; a fault of layout where they do not stand
    /// next.
    #[inline(always)]
    pub fn heading(&mut self, name: &[u8]) -> Result<u32, Fault>
        ensures took { Took (λ x. x) result (left self.new) (numbered self.old) (heading_of name.now (left self.old)) }
        ensures rest { left self.new ≡ after_heading name.now (left self.old) }
        ensures same { numbered self.new ≡ numbered self.old }
    {
        let word = self.word()?;
        if opens(word.token, name) {
            self.field()
        } else {
            Err(Fault::Layout { line: word.line })
        }
    }
}

// The first word of the rest of a line, and what follows the space after it.
#[inline(always)]
fn split_word(rest: &[u8]) -> (&[u8], Option<&[u8]>)
    ensures word { result.0.now ≡ first_word (cut_at 32 rest.now) rest.now }
    ensures after { option_map (λ x. x.now) result.1 ≡ later_words (cut_at 32 rest.now) }
{
    // A match, since `map_or` would name the last word's case before the usual one.
    match cut(b' ', rest) {
        Some((word, after)) => (word, Some(after)),
        None => (rest, None),
    }
}
