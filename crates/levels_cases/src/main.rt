//! Runs the listing over a table of order files, whole and damaged, and names those that print something else than
//! they should. What the files should print was worked out by hand from docs/RULES.md.
#![tactic(auto)]

use case_table::{Subject, run_cases};
use listing::listing;
use std::alloc::{AllocError, Global};

// A case's input is an order file, and its output what `levels` prints for it.
struct Listing;

impl Subject for Listing {
    fn gives(input: &[u8], output: &[u8], heap: Global) -> Result<bool, AllocError> {
        let text = listing(input, heap)?;
        Ok(text.as_bytes() == output)
    }
}

fn main(rt: HostRuntime) -> anyhow::Result<()> {
    run_cases::<Listing>(&rt)
}
