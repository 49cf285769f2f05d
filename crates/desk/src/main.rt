//! Reads an order file and the drawing office's calls on standard input, and prints what an order answers.
#![tactic(auto)]

use input::first_bytes;
use transcript::{INPUT_LIMIT, transcript};

fn main(rt: HostRuntime) -> anyhow::Result<()> {
    let heap = rt.alloc();
    let input = first_bytes(rt.stdin(), INPUT_LIMIT, heap)?;
    rt.print(transcript(input.as_slice(), heap)?)?;
    Ok(())
}
