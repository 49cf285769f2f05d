//! What the drawing office's program prints: the answers to an order file's loads and to the call lines after it.
#![tactic(auto)]

ghost use Rattle.std.specs.Prelude.{◌≡◌, ◌≤◌, length, take, IfOk, string_bytes};
ghost use Rattle.transcript.specs.Transcripts.{input_limit, Transcribed};

use day::Day;
use std::alloc::{AllocError, Global};
use unrun::Unrun;

mod day;
mod script;
mod told;
mod unrun;

/// Of a longer input only so many bytes are read.
pub const INPUT_LIMIT: usize = 1 << 20;

/// The text that answers an input: an order file, and a call a line after it. The file's loads are the first calls.
pub fn transcript(input: &[u8], heap: Global) -> Result<String, AllocError>
    ensures text { IfOk result (λ t. Transcribed (take input_limit input.now) (string_bytes t)) }
    ensures size { INPUT_LIMIT ≡ input_limit }
{
    answer(counted(input), heap)
}

// The bytes of an input that count.
#[tactic(auto, using(crate::proofs::Lines::front_counts))]
fn counted(input: &[u8]) -> &[u8]
    ensures front { result.now ≡ take input_limit input.now }
    ensures short { length result.now ≤ input_limit }
{
    &input[..INPUT_LIMIT.min(input.len())]
}

// The text that answers an input of which all counts.
fn answer(input: &[u8], heap: Global) -> Result<String, AllocError>
    requires { length input.now ≤ input_limit }
    ensures { IfOk result (λ t. Transcribed input.now (string_bytes t)) }
{
    match Day::read(input, heap) {
        Ok(day) => day.answer(heap),
        Err(Unrun::Refused(refusal)) => format!(in heap; "{refusal}\n"),
        Err(Unrun::Unreadable { line }) => format!(in heap; "UNREADABLE {line}\n"),
        Err(Unrun::NoMemory) => Err(AllocError),
    }
}
