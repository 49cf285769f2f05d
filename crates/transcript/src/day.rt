//! What an input asks for.
ghost use Rattle.std.specs.Prelude.{◌≡◌, ◌+◌, ◌≤◌, length};
ghost use Rattle.call_lines.specs.Entries.{entries_of, ReadAs};
ghost use Rattle.order_file.specs.File.{filed};
ghost use Rattle.order_file.specs.Lines.{card_line};
ghost use Rattle.transcript.specs.Transcripts.{day_of, input_limit};

use crate::script::Script;
use crate::told::told;
use crate::unrun::Unrun;
use call_lines::call_line::CallLine;
use call_lines::read_calls;
use call_lines::unread::Unread;
use order_file::contents::OrderFile;
use order_file::front::Front;
use order_file::read_front;
use order_frame::frame::OrderFrame;
use order_frame::frame_of;
use records::line::Line;
use runs::run;
use std::alloc::{AllocError, Global};

// A frame, the loads that the order file lists, and the lines after it.
#[derive(Debug, Drop)]
pub(crate) struct Day {
    frame: OrderFrame,
    loads: Vec<Line>,
    lines: Vec<CallLine>,
}

impl Day {
    ghost use Rattle.transcript.specs.Days.{DayRead, DayAnswered};

    // Reads an input: the order file's lines first, then the call lines, then the frame is made.
    pub(crate) fn read(input: &[u8], heap: Global) -> Result<Day, Unrun>
        requires { length input.now ≤ input_limit }
        ensures { DayRead result (day_of input.now) }
    {
        let Front { file, rest } = read_front(input, heap)?;
        let lines = lines_after(&file, rest, heap)?;
        let frame = frame_of(&file, heap)?;
        let OrderFile { loads, .. } = file;
        Ok(Day {
            frame,
            loads,
            lines,
        })
    }

    // Makes the calls, and tells their answers.
    pub(crate) fn answer(self, heap: Global) -> Result<String, AllocError>
        ensures { DayAnswered self result }
    {
        let Day {
            frame,
            loads,
            lines,
        } = self;
        let Script { calls, turns } = Script::of(&loads, lines, heap)?;
        let answers = run(frame, calls, heap)?;
        told(&turns, &answers, heap)
    }
}

// The call lines that stand after an order file, under its card.
fn lines_after(file: &OrderFile, rest: &[u8], heap: Global) -> Result<Vec<CallLine>, Unread>
    requires { length rest.now ≤ input_limit }
    ensures { ReadAs result (entries_of file.now.card (card_line (filed file.now) + 1) rest.now) }
{
    read_calls(rest, line_after(file), file.card, heap)
}

// The number of the line after an order file.
fn line_after(file: &OrderFile) -> u16
    ensures { result ≡ card_line (filed file.now) + 1 }
{
    file.card_line() as u16 + 1
}
