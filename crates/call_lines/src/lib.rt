//! The call lines that the drawing office types after an order file: what is asked of the order, one call a line, and
//! the cards that replace the file's.
#![tactic(auto)]

ghost use Rattle.std.specs.Prelude.{◌≡◌};
ghost use Rattle.call_lines.specs.Entries.{counted, entries_of, text_limit, ReadAs};
ghost use Rattle.call_lines.specs.Exact.{Exactly};

use call_line::CallLine;
use reader::read_text;
use records::card::Card;
use std::alloc::Global;
use unread::Unread;

pub mod call_line;
mod line;
mod reader;
pub mod unread;
mod word;

/// Of a longer text only so many bytes are read, and a line that they cut in two is unreadable.
pub const TEXT_LIMIT: usize = 1 << 20;

/// Reads all call lines of a text whose first line has the number `first`, with `card` in force until a CARD line
/// replaces it. An empty text has none. The number is a `u16`, so that the number of no line overflows.
pub fn read_calls(
    text: &[u8],
    first: u16,
    card: Card,
    heap: Global,
) -> Result<Vec<CallLine>, Unread>
    ensures told { ReadAs result (entries_of card first (counted text.now)) }
    ensures exact { Exactly card first result (counted text.now) }
    ensures size { TEXT_LIMIT ≡ text_limit }
{
    read_text(text, first, card, heap)
}
