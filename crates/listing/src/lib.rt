//! The levels of an order file's frame, or the refusal, as text.
#![tactic(auto)]

ghost use Rattle.std.specs.Prelude.{◌≡◌, take, IfOk, string_bytes};
ghost use Rattle.order_file.specs.File.{byte_limit};
ghost use Rattle.listing.specs.Listings.{listing_text};

use listed::Listed;
use order_frame::open;
use records::failure::Failure;
use std::alloc::{AllocError, Global};

mod listed;

/// The text that lists the levels of the frame which the file describes, or that tells why there is none.
pub fn listing(file: &[u8], heap: Global) -> Result<String, AllocError>
    ensures text { IfOk result (λ t. string_bytes t ≡ listing_text file.now) }
    ensures front { IfOk result (λ t. string_bytes t ≡ listing_text (take byte_limit file.now)) }
{
    match open(file, heap) {
        Ok(opened) => format!(in heap;
            "{}",
            Listed {
                frame: &opened.frame
            }
        ),
        Err(Failure::Denied(refusal)) => format!(in heap; "{refusal}\n"),
        Err(Failure::NoMemory) => Err(AllocError),
    }
}
