//! The report for programs in other languages: bytes in, bytes out, by C's calls.
#![tactic(auto)]

ghost use Rattle.std.specs.Prelude.{◌≡◌, take, IfOk};
ghost use Rattle.report.specs.Buffers.{Written};
ghost use Rattle.report.specs.Laws.{ReportLaw};
ghost use Rattle.report.specs.Reports.{report_text};
ghost use Rattle.potlimay.specs.Answers.{answer_of, outcome_of};

use answer::Answer;
use std::alloc::Global;

pub mod answer;

/// Writes the sheet of an order file into `out`, or the refusal with the line that is to blame, and answers how many bytes
/// that takes; further bytes stay as they were. Where the buffer is too short or memory is wanting, the whole of it stays.
#[unsafe(no_mangle)]
pub extern "C" fn potlimay_report(heap: Global, file: &[u8], out: &mut [u8]) -> Answer
    ensures answer { result ≡ answer_of (outcome_of result) }
    ensures written { Written (report_text file.now) out.old (outcome_of result) out.new }
    ensures law { IfOk (outcome_of result) (λ n. ReportLaw file.now (take n out.new)) }
{
    Answer::of(report::report(file, out, heap))
}
