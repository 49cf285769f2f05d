//! One line: its word, what follows the word, and no more.
ghost use Rattle.std.specs.Prelude.{◌≡◌, true, false, vec_items, IfOk, MatchResult};
ghost use Rattle.tokens.specs.TextLines.{left, none_left, numbered};
ghost use Rattle.tokens.specs.declared.fault.Fault.TheVariants.{Layout};
ghost use Rattle.call_lines.specs.Asked.{asked, entry};
ghost use Rattle.call_lines.specs.Lines.{following, axes_call, axes_of, blank_row, blank_rows, entry_of};
ghost use Rattle.call_lines.specs.Reading.{Reads, ReadsWhole};

use crate::call_line::CallLine;
use crate::unread::Unread;
use crate::word::Word;
use order_file::record::Record;
use records::card::Card;
use records::limits::MOST_LEVELS;
use records::line::Line;
use runs::call::Call;
use seismic::axis::Axis;
use seismic::row::Row;
use std::alloc::{AllocError, Global};
use tokens::fault::Fault;
use tokens::text_line::TextLine;

// How many stiffnesses a line may list.
const MOST_STIFFNESSES: usize = 32;

// Rows for a sheet of the highest frame.
const MOST_ROWS: usize = MOST_LEVELS as usize;

// A row of zeros.
fn blank_row() -> Row
    ensures { result ≡ blank_row }
{
    Row::default()
}

// The rows that are lent for a sheet.
fn blank_rows(heap: Global) -> Result<Vec<Row>, AllocError>
    ensures { IfOk result (λ v. vec_items v ≡ blank_rows) }
{
    Vec::from_slice(heap, &[blank_row(); MOST_ROWS])
}

// One axis a stiffness, up to so many.
fn axes(line: &mut TextLine<'_>, most: usize, heap: Global) -> Result<Vec<Axis>, Unread>
    ensures read { Reads vec_items result (left line.new) (numbered line.old) (axes_of most (left line.old)) }
    ensures same { numbered line.new ≡ numbered line.old }
{
    let mut axes = Vec::new(heap);
    for _ in 0..most {
        if line.is_over() {
            break;
        }
        axes.push(Axis {
            stiffness: line.field()?,
            direct_shear: 0,
        })?;
    }
    Ok(axes)
}

// A shear on axes: the storey, and the stiffnesses.
fn axes_call(line: &mut TextLine<'_>, card: Card, heap: Global) -> Result<Call, Unread>
    ensures read { Reads asked result (left line.new) (numbered line.old) (axes_call card (left line.old)) }
    ensures same { numbered line.new ≡ numbered line.old }
{
    let storey = line.field()?;
    let axes = axes(line, MOST_STIFFNESSES, heap)?;
    Ok(Call::Axes { card, storey, axes })
}

// What stands after the word.
fn following(
    word: Word,
    line: &mut TextLine<'_>,
    card: Card,
    heap: Global,
) -> Result<CallLine, Unread>
    ensures read { Reads entry result (left line.new) (numbered line.old) (following card word (left line.old)) }
    ensures same { numbered line.new ≡ numbered line.old }
{
    let call = match word {
        Word::Load => Call::Load(Line::read(line)?),
        Word::Strike => Call::Strike,
        Word::Standing => Call::Standing {
            level: line.field()?,
        },
        Word::Trial => Call::Trial,
        Word::Keep => Call::Keep,
        Word::Abandon => Call::Abandon,
        Word::Issue => Call::Issue,
        Word::Reopen => Call::Reopen,
        Word::Release => Call::Release,
        Word::Sheet => Call::Sheet {
            card,
            rows: blank_rows(heap)?,
        },
        Word::Axes => axes_call(line, card, heap)?,
        Word::Card => return Ok(CallLine::Card(Card::read(line)?)),
    };
    Ok(CallLine::Call(call))
}

// What a line comes to, under the card in force.
pub(crate) fn read_line(
    mut line: TextLine<'_>,
    card: Card,
    heap: Global,
) -> Result<CallLine, Unread>
    ensures { ReadsWhole result (numbered line.entry) (entry_of card (left line.entry)) }
{
    let word = line.field()?;
    let call_line = following(word, &mut line, card, heap)?;
    line.end()?;
    Ok(call_line)
}
