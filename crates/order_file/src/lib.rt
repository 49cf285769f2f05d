//! The order file: one text that describes a frame, the loads of an order and its card.
//!
//! Four sections stand in the order KIT, LEVELS, LOADS, CARD. Each is opened by a line with its word
//! and its count, and its records follow, one a line.
#![tactic(auto)]

ghost use Rattle.std.specs.Prelude.{◌≡◌, take, IfOk};
ghost use Rattle.order_file.specs.Exact.{Exactly};
ghost use Rattle.order_file.specs.File.{byte_limit, order_file_of, filed, sections, ReadAs};
ghost use Rattle.order_file.specs.Front.{FrontAs, ExactlyBegun, front_within, FrontWithin};
ghost use Rattle.order_file.specs.Lines.{LinedUp};

use contents::OrderFile;
use front::Front;
use reader::{front_of, read_file};
use records::failure::Failure;
use std::alloc::Global;
use tokens::fault::Fault;

pub mod contents;
pub mod front;
pub mod line_numbers;
mod reader;
pub mod record;

/// Of a longer file only so many bytes are read: any that is accepted is shorter.
pub const BYTE_LIMIT: usize = 8192;

/// Reads a whole order file: its records, or the fault of its first faulty line.
pub fn read(file: &[u8], heap: Global) -> Result<OrderFile, Failure<Fault>>
    ensures told { ReadAs result (order_file_of file.now) }
    ensures exact { Exactly result file.now }
    ensures front { ReadAs result (order_file_of (take byte_limit file.now)) }
    ensures size { BYTE_LIMIT ≡ byte_limit }
    ensures lines { IfOk result (λ f. LinedUp (filed f) file.now) }
{
    read_file(file, heap)
}

/// Reads the order file that a text begins with: its records and all that follows its last line, or the fault of its
/// first faulty line. As of a whole file, only the first bytes are looked at for it, which never shows.
pub fn read_front(text: &[u8], heap: Global) -> Result<Front<'_>, Failure<Fault>>
    ensures told { FrontAs result (sections (text.now, 1)) }
    ensures exact { ExactlyBegun result text.now }
    ensures front { FrontWithin result (front_within text.now) }
    ensures lines { IfOk result (λ f. LinedUp (filed f.file) text.now) }
{
    front_of(text, heap)
}
