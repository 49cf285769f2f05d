//! From the bytes of an order file to its records and the frame that they describe, or to the refusal.
#![tactic(auto)]

ghost use Rattle.std.specs.Prelude.{◌≡◌, ℕ, List, take, Some};
ghost use Rattle.order_file.specs.File.{byte_limit, filed};
ghost use Rattle.order_file.specs.Lines.{LinedUp};
ghost use Rattle.order_frame.specs.Frames.{frame_denial};
ghost use Rattle.order_frame.specs.Blame.{Blamed, BlamedOn};
ghost use Rattle.order_frame.specs.Outcomes.{outcome, FrameAs, OpenedAs};
ghost use Rattle.order_frame.specs.Refusals.{frame_refusal};

use denied::record_line;
use frame::OrderFrame;
use frames::denial::FrameDenial;
use opened::Opened;
use order_file::contents::OrderFile;
use order_file::read;
use records::failure::Failure;
use refusal::Refusal;
use std::alloc::Global;

mod denied;
pub mod frame;
pub mod opened;
pub mod refusal;

/// Reads an order file and makes its frame: the file is judged first, then the kit, then the levels from below.
pub fn open(bytes: &[u8], heap: Global) -> Result<Opened, Failure<Refusal>>
    ensures told { OpenedAs result (outcome bytes.now) }
    ensures front { OpenedAs result (outcome (take byte_limit bytes.now)) }
    ensures blame { Blamed result bytes.now }
{
    let file = read(bytes, heap).map_err(Failure::widen)?;
    let frame = frame_of(&file, heap)?;
    Ok(Opened { file, frame })
}

/// Makes the frame that the records of an order file describe: the kit is judged first, then the levels from below.
pub fn frame_of(file: &OrderFile, heap: Global) -> Result<OrderFrame, Failure<Refusal>>
    ensures told { FrameAs result (filed file.now) }
    ensures blame { (bytes : List ℕ) → LinedUp (filed file.now) bytes → BlamedOn bytes result (filed file.now) }
{
    frame_or_refusal(file, heap)
}

// The frame, or the refusal on the line of the record at fault.
fn frame_or_refusal(file: &OrderFile, heap: Global) -> Result<OrderFrame, Failure<Refusal>>
    ensures { FrameAs result (filed file.now) }
{
    // A match, since the line comes from the file, which a `From` has not.
    match OrderFrame::new(file.kit, &file.levels, heap) {
        Ok(frame) => Ok(frame),
        Err(Failure::Denied(denial)) => Err(Failure::Denied(refusal_of(file, denial))),
        Err(Failure::NoMemory) => Err(Failure::NoMemory),
    }
}

// The refusal of a frame that is denied, on the line of the record that the denial is about.
fn refusal_of(file: &OrderFile, denial: FrameDenial) -> Refusal
    requires { frame_denial file.now.kit file.now.levels.items ≡ Some denial }
    ensures { result ≡ frame_refusal (filed file.now) denial }
{
    let line = record_line(file, denial).unwrap();
    Refusal::Unframed { denial, line }
}
