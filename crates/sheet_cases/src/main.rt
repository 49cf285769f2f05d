//! Writes the reports of a table of order files, whole and damaged, and names those that are not as they should be. The
//! reports were worked out by an independent reading of docs/RULES.md, all refusals and most verdicts by hand as well. No
//! case has denial 24: a file has no 65th load.
//!
//! Each report is written into buffers of three sizes: one that just suffices, a longer one, and one a byte too short.
#![tactic(auto)]

use case_table::{Subject, run_cases};
use records::denial::Denial;
use records::failure::Failure;
use report::denial::ReportDenial;
use report::{BUFFER_SIZE, report};
use std::alloc::{AllocError, Global};

// What the buffers hold before: no text has this byte.
const BLANK: u8 = 255;

const LONGER: usize = 5_000;

// Spelled out, so that another size of the buffer shows.
const ONE_TOO_SHORT: usize = 4_095;

const TOO_SHORT_NUMBER: u32 = 37;

const TOO_SHORT_PLACE: u32 = 4_096;

fn is_blank(bytes: &[u8]) -> bool {
    bytes.iter().all(|b| *b == BLANK)
}

// Whether these bytes are the text and then blank.
fn holds(bytes: &[u8], text: &[u8]) -> bool {
    match bytes.strip_prefix(text) {
        Some(rest) => is_blank(rest),
        None => false,
    }
}

// The report of a file in a blank buffer, or its denial. A want of memory is the program's own failure.
fn written(
    file: &[u8],
    out: &mut [u8],
    heap: Global,
) -> Result<Result<usize, ReportDenial>, AllocError> {
    match report(file, out, heap) {
        Ok(count) => Ok(Ok(count)),
        Err(Failure::Denied(denial)) => Ok(Err(denial)),
        Err(Failure::NoMemory) => Err(AllocError),
    }
}

// Whether a buffer that suffices takes the report: its bytes are counted, and all others stay.
fn is_taken(file: &[u8], text: &[u8], out: &mut [u8], heap: Global) -> Result<bool, AllocError> {
    match written(file, out, heap)? {
        Ok(count) => Ok(count == text.len() && holds(out, text)),
        Err(_) => Ok(false),
    }
}

// Whether a buffer that is too short is denied and stays.
fn is_denied(file: &[u8], out: &mut [u8], heap: Global) -> Result<bool, AllocError> {
    match written(file, out, heap)? {
        Ok(_) => Ok(false),
        Err(denial) => Ok(
            denial.number() == TOO_SHORT_NUMBER
                && denial.place() == TOO_SHORT_PLACE
                && is_blank(out),
        ),
    }
}

// A case's input is an order file, and its output the report, which buffers of all three sizes must bear out.
struct Report;

impl Subject for Report {
    fn gives(input: &[u8], output: &[u8], heap: Global) -> Result<bool, AllocError> {
        Ok(
            is_taken(input, output, &mut [BLANK; BUFFER_SIZE], heap)?
                && is_taken(input, output, &mut [BLANK; LONGER], heap)?
                && is_denied(input, &mut [BLANK; ONE_TOO_SHORT], heap)?,
        )
    }
}

fn main(rt: HostRuntime) -> anyhow::Result<()> {
    run_cases::<Report>(&rt)
}
