//! Reading from the front, line by line, up to the first fault.
ghost use Rattle.std.specs.Prelude.{◌≡◌, ◌+◌, ◌≤◌, IfOk, take, vec_items, vec_len, length, min, true, false, MatchResult};
ghost use Rattle.tokens.specs.TextLines.{left, none_left, numbered};
ghost use Rattle.tokens.specs.declared.fault.Fault.TheVariants.{Layout};
ghost use Rattle.order_file.specs.File.{byte_limit, kit_section, level_section, load_section, card_section, sections, order_file_of, filed, ReadAs};
ghost use Rattle.order_file.specs.Front.{rest_after, front_within, FrontWithin};
ghost use Rattle.order_file.specs.Sections.{next_line, record_line, record_lines, count_line, section_of_up_to};

use crate::contents::OrderFile;
use crate::front::Front;
use crate::record::Record;
use crate::{BYTE_LIMIT, read_front};
use records::card::Card;
use records::failure::Failure;
use records::kit_numbers::KitNumbers;
use records::level::Level;
use records::limits::{MOST_LEVELS, MOST_STOREYS};
use records::line::Line;
use std::alloc::Global;
use tokens::fault::Fault;
use tokens::text_line::TextLine;

// How many loads a file may list.
const MOST_LOADS: u32 = 64;

// What is left of a file, and the number of the line that comes next.
#[derive(Clone, Copy)]
struct Reader<'a> {
    rest: &'a [u8],
    line: u32,
    heap: Global,
    // Each line takes at least the byte that ends it, so the numbers of lines stay small.
    ghost short: { line + length rest.now ≤ byte_limit + 1 },
}

impl<'a> Reader<'a> {
    ghost use Rattle.order_file.specs.Reading.{place, Lined, Read, Reads};

    // At the start of a file.
    fn new(file: &'a [u8], heap: Global) -> Reader<'a>
        ensures { place result ≡ (take byte_limit file.now, 1) }
    {
        Reader {
            rest: first_bytes(file),
            line: 1,
            heap,
        }
    }

    // The next line, which byte 10 ends.
    #[inline(always)]
    fn line(&mut self) -> Result<TextLine<'a>, Fault>
        ensures { Lined result (place self.new) self.old.line (next_line (place self.old)) }
    {
        let missing = Fault::Layout { line: self.line };
        let (line, rest) = TextLine::first_of(self.rest, self.line).ok_or(missing)?;
        self.rest = rest;
        self.line += 1;
        Ok(line)
    }

    // The record that the next line is.
    fn record<R: Record + Drop>(&mut self) -> Result<R, Fault>
        ensures { Read result (place self.new) (record_line R.layout (place self.old)) }
    {
        let mut line = self.line()?;
        let record = R::read(&mut line)?;
        line.end()?;
        Ok(record)
    }

    // The count on the line that opens the section `name`.
    #[inline(always)]
    fn count(&mut self, least: u32, most: u32, name: &[u8]) -> Result<u32, Fault>
        ensures read { Read result (place self.new) (count_line least most name.now (place self.old)) }
        ensures most { IfOk result (λ n. n ≤ most) }
    {
        let mut line = self.line()?;
        let number = line.number();
        let count = line.heading(name)?;
        line.end()?;
        if (least..=most).contains(&count) {
            Ok(count)
        } else {
            Err(Fault::Count { line: number })
        }
    }

    // So many records, one a line.
    fn records<R: Record + Drop>(&mut self, count: u32) -> Result<Vec<R>, Failure<Fault>>
        ensures read { Reads vec_items result (place self.new) (record_lines R.layout count (place self.old)) }
        ensures count { IfOk result (λ v. vec_len v ≡ count) }
    {
        let mut records = Vec::with_capacity(self.heap, count as usize)?;
        for _ in 0..count {
            records.push(self.record()?)?;
        }
        Ok(records)
    }

    // A section of up to so many records.
    fn section<R: Record + Drop>(
        &mut self,
        name: &[u8],
        most: u32,
    ) -> Result<Vec<R>, Failure<Fault>>
        ensures read { Reads vec_items result (place self.new) (section_of_up_to most R.layout name.now (place self.old)) }
        ensures most { IfOk result (λ v. vec_len v ≤ most) }
    {
        let count = self.count(0, most, name)?;
        self.records(count)
    }

    // The kit's section.
    fn kit(&mut self) -> Result<Option<KitNumbers>, Fault>
        ensures { Read result (place self.new) (kit_section (place self.old)) }
    {
        let count = self.count(0, 1, b"KIT")?;
        if count == 0 {
            Ok(None)
        } else {
            self.record().map(Some)
        }
    }

    // The levels that the file lists, on top of a kit or as the whole frame.
    fn levels(&mut self, kit: Option<KitNumbers>) -> Result<Vec<Level>, Failure<Fault>>
        ensures read { Reads vec_items result (place self.new) (level_section kit (place self.old)) }
        ensures most { IfOk result (λ v. vec_len v ≤ 24) }
    {
        let most = if kit.is_some() {
            MOST_STOREYS as u32
        } else {
            MOST_LEVELS
        };
        self.section(b"LEVELS", most)
    }

    // The loads' section.
    fn loads(&mut self) -> Result<Vec<Line>, Failure<Fault>>
        ensures read { Reads vec_items result (place self.new) (load_section (place self.old)) }
        ensures most { IfOk result (λ v. vec_len v ≤ 64) }
    {
        self.section(b"LOADS", MOST_LOADS)
    }

    // The card's section.
    fn card(&mut self) -> Result<Card, Fault>
        ensures { Read result (place self.new) (card_section (place self.old)) }
    {
        let _ = self.count(1, 1, b"CARD")?;
        self.record()
    }

    // The four sections in their order.
    fn sections(&mut self) -> Result<OrderFile, Failure<Fault>>
        ensures { Reads filed result (place self.new) (sections (place self.old)) }
    {
        let kit = self.kit()?;
        let levels = self.levels(kit)?;
        let loads = self.loads()?;
        let card = self.card()?;
        Ok(OrderFile {
            kit,
            levels,
            loads,
            card,
        })
    }
}

// The bytes of a text that are looked at for an order file.
fn first_bytes(text: &[u8]) -> &[u8]
    ensures bytes { result.now ≡ take byte_limit text.now }
    ensures count { length result.now ≡ min byte_limit (length text.now) }
{
    &text[..BYTE_LIMIT.min(text.len())]
}

// What follows in a text, where so much is left of its first bytes.
fn rest_after<'a>(text: &'a [u8], left: &[u8]) -> &'a [u8]
    requires { length left.now ≤ length (take byte_limit text.now) }
    ensures { result.now ≡ rest_after text.now left.now }
{
    let read = first_bytes(text).len() - left.len();
    &text[read..]
}

// The sections in their order, and what follows them.
pub(crate) fn front_of(text: &[u8], heap: Global) -> Result<Front<'_>, Failure<Fault>>
    ensures { FrontWithin result (front_within text.now) }
{
    let mut reader = Reader::new(text, heap);
    let file = reader.sections()?;
    let rest = rest_after(text, reader.rest);
    Ok(Front { file, rest })
}

// An order file, and nothing after it.
pub(crate) fn read_file(file: &[u8], heap: Global) -> Result<OrderFile, Failure<Fault>>
    ensures { ReadAs result (order_file_of file.now) }
{
    let front = read_front(file, heap)?;
    if front.rest.is_empty() {
        Ok(front.file)
    } else {
        let line = front.file.card_line() + 1;
        Err(Failure::Denied(Fault::Surplus { line }))
    }
}
