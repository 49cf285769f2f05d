//! Runs the transcript over a table of days, whole and damaged, and names those that print something else than they
//! should. What the days should print was worked out by hand, or by an independent reading of docs/RULES.md.
#![tactic(auto)]

use case_table::{Subject, run_cases};
use std::alloc::{AllocError, Global};
use transcript::transcript;

// A case's input is an order file with calls after it, and its output what `desk` prints for it.
struct Transcript;

impl Subject for Transcript {
    fn gives(input: &[u8], output: &[u8], heap: Global) -> Result<bool, AllocError> {
        let text = transcript(input, heap)?;
        Ok(text.as_bytes() == output)
    }
}

fn main(rt: HostRuntime) -> anyhow::Result<()> {
    run_cases::<Transcript>(&rt)
}
