//! The report: from the bytes of an order file to the bytes of its sheet, or of its refusal.
#![tactic(auto)]

ghost use Rattle.std.specs.Prelude.{◌≡◌, take, IfOk};
ghost use Rattle.order_file.specs.File.{byte_limit};
ghost use Rattle.report.specs.Buffers.{buffer_size, denial_number, denial_place, Written};
ghost use Rattle.report.specs.Laws.{ReportLaw};
ghost use Rattle.report.specs.Reports.{report_text};

use denial::ReportDenial;
use records::denial::Denial;
use records::failure::Failure;
use sheeting::write_sheet;
use std::alloc::Global;

pub mod denial;
mod refusal;
mod sheeting;

/// A buffer of so many bytes holds every report.
pub const BUFFER_SIZE: usize = 4096;

/// Writes the sheet of an order file into `out`, or the refusal with the line that is to blame, and answers how many bytes
/// that takes; further bytes stay as they were. A buffer that is too short is denied before the file is looked at. On an error,
/// for a short buffer or for want of memory, the whole buffer stays. Only the first 8,192 bytes of the file count.
#[tactic(auto, using(crate::proofs::Laws::written_of_first_bytes, crate::proofs::Laws::lawful_written, crate::proofs::Laws::report_law))]
pub fn report(file: &[u8], out: &mut [u8], heap: Global) -> Result<usize, Failure<ReportDenial>>
    ensures written { Written (report_text file.now) out.old result out.new }
    ensures front { Written (report_text (take byte_limit file.now)) out.old result out.new }
    ensures law { IfOk result (λ n. ReportLaw file.now (take n out.new)) }
    ensures text_law { ReportLaw file.now (report_text file.now) }
    ensures size { BUFFER_SIZE ≡ buffer_size }
    ensures numbers { (d : ReportDenial) → ⟦<ReportDenial as Denial>⟧.numbered d ≡ denial_number d }
    ensures places { (d : ReportDenial) → ⟦<ReportDenial as Denial>⟧.placed d ≡ denial_place d }
{
    write_report(file, out, heap)
}

// What `report` answers and writes: its law, and that the first bytes decide, follow.
fn write_report(file: &[u8], out: &mut [u8], heap: Global) -> Result<usize, Failure<ReportDenial>>
    ensures { Written (report_text file.now) out.old result out.new }
{
    if out.len() < BUFFER_SIZE {
        return Err(Failure::Denied(ReportDenial::BufferTooShort));
    }
    match write_sheet(file, out, heap) {
        Ok(length) => Ok(length),
        Err(Failure::Denied(refusal)) => Ok(refusal.write(out).unwrap()),
        Err(Failure::NoMemory) => Err(Failure::NoMemory),
    }
}
