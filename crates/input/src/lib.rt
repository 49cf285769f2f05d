//! What a program reads.
#![tactic(auto)]

ghost use Rattle.std.specs.Prelude.{◌≡◌, ◌≢◌, take, IfErr, IfOk, IfSome};
ghost use Rattle.std.specs.IoError.{error_kind};

use std::alloc::Global;
use std::io::{self, ErrorKind, Read};

/// The first bytes of an input, up to so many, in as many reads as that takes.
/// A read that was only interrupted is made again.
pub fn first_bytes<R: Read + Drop>(input: R, limit: usize, heap: Global) -> io::Result<Vec<u8>>
    ensures front { IfOk result (λ bytes. IfSome (R.remaining input) (λ given. bytes.items ≡ take limit given)) }
    ensures retried { IfErr result (λ e. error_kind e ≢ ErrorKind.Interrupted) }
{
    let mut bytes = Vec::new(heap);
    input.take(limit as u64).read_to_end(&mut bytes)?;
    Ok(bytes)
}
