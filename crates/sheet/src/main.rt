//! Reads an order file on standard input and prints its sheet, or the refusal.
#![tactic(auto)]

use input::first_bytes;
use order_file::BYTE_LIMIT;
use report::{BUFFER_SIZE, report};
use std::alloc::AllocError;
use std::io::Write;

fn main(rt: HostRuntime) -> anyhow::Result<()> {
    let heap = rt.alloc();
    let file = first_bytes(rt.stdin(), BYTE_LIMIT, heap)?;
    let mut out = [0u8; BUFFER_SIZE];
    // The buffer is as long as a report asks for: only memory can be wanting.
    let count = report(file.as_slice(), &mut out, heap).map_err(|_| AllocError)?;
    rt.stdout().write_all(&out[..count])?;
    Ok(())
}
