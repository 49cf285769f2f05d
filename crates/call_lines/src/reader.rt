//! Reading from the front, line by line, up to the first unreadable line.
ghost use Rattle.std.specs.Prelude.{◌≡◌, ◌+◌, ◌^◌, ◌<◌, ◌≤◌, IfOk, length, take};
ghost use Rattle.call_lines.specs.Entries.{counted, entries_of, ReadAs};

use crate::TEXT_LIMIT;
use crate::call_line::CallLine;
use crate::line::read_line;
use crate::unread::Unread;
use records::card::Card;
use std::alloc::Global;
use tokens::fault::Fault;
use tokens::text_line::TextLine;

// What is left of a text, the number of the line that comes next, and the card in force for it.
#[derive(Drop)]
struct Reader<'a> {
    rest: &'a [u8],
    line: u32,
    card: Card,
    heap: Global,
    // Each line takes at least the byte that ends it, so the numbers of lines stay small.
    ghost short: { line + length rest.now < 2 ^ 16 + 2 ^ 20 },
}

impl<'a> Reader<'a> {
    ghost use Rattle.call_lines.specs.Steps.{place, Lined, Stepped, next_line, step};

    // At the start of a text whose first line has this number.
    #[tactic(auto, unfolding(crate::specs::Entries::counted))]
    fn new(text: &'a [u8], first: u16, card: Card, heap: Global) -> Reader<'a>
        ensures { place result ≡ record { rest = counted text.now; line = first; card = card } }
    {
        Reader {
            rest: front(text, TEXT_LIMIT),
            line: u32::from(first),
            card,
            heap,
        }
    }

    // The next line, which byte 10 ends.
    fn line(&mut self) -> Result<TextLine<'a>, Fault>
        ensures line { Lined result (place self.new) self.old.line (next_line (place self.old)) }
        ensures less { IfOk result (λ _. length self.new.rest.now < length self.old.rest.now) }
    {
        let missing = Fault::Layout { line: self.line };
        let (line, rest) = TextLine::first_of(self.rest, self.line).ok_or(missing)?;
        self.rest = rest;
        self.line += 1;
        Ok(line)
    }

    // What the next line comes to; a new card is in force from there on.
    fn call_line(&mut self) -> Result<CallLine, Unread>
        ensures step { Stepped result (place self.new) self.old.line (step (place self.old)) }
        ensures less { IfOk result (λ _. length self.new.rest.now < length self.old.rest.now) }
    {
        let line = self.line()?;
        let call_line = read_line(line, self.card, self.heap)?;
        if let CallLine::Card(card) = &call_line {
            self.card = *card;
        }
        Ok(call_line)
    }

    // What all lines come to.
    fn call_lines(mut self) -> Result<Vec<CallLine>, Unread>
        ensures { ReadAs result (entries_of self.entry.card self.entry.line self.entry.rest.now) }
    {
        let mut lines = Vec::new(self.heap);
        while !self.rest.is_empty() {
            lines.push(self.call_line()?)?;
        }
        Ok(lines)
    }
}

// The first so many bytes, or all where there are fewer.
fn front(bytes: &[u8], most: usize) -> &[u8]
    ensures front { result.now ≡ take most bytes.now }
    ensures most { length result.now ≤ most }
{
    &bytes[..most.min(bytes.len())]
}

// All lines of what counts of a text.
pub(crate) fn read_text(
    text: &[u8],
    first: u16,
    card: Card,
    heap: Global,
) -> Result<Vec<CallLine>, Unread>
    ensures { ReadAs result (entries_of card first (counted text.now)) }
{
    Reader::new(text, first, card, heap).call_lines()
}
