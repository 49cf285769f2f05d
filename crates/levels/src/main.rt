//! Reads an order file on standard input and prints the levels of its frame, or the refusal.
#![tactic(auto)]

use input::first_bytes;
use listing::listing;
use order_file::BYTE_LIMIT;

fn main(rt: HostRuntime) -> anyhow::Result<()> {
    let heap = rt.alloc();
    let file = first_bytes(rt.stdin(), BYTE_LIMIT, heap)?;
    rt.print(listing(file.as_slice(), heap)?)?;
    Ok(())
}
