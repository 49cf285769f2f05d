//! What is answered, in a form that C can read.
ghost use Rattle.std.specs.Prelude.{◌≡◌};
ghost use Rattle.potlimay.specs.Answers.{answer_of};

use records::denial::Denial;
use records::failure::Failure;
use report::denial::ReportDenial;

/// How a call ended. C has no enum whose cases hold values: what does not belong to the case is 0.
#[repr(C)]
#[derive(Clone, Copy, Debug, Default, PartialEq, Eq)]
pub struct Answer {
    /// 0 where the report was written, 1 where it was denied, 2 where there was no memory for it.
    pub status: u32,
    /// The number of the denial.
    pub number: u32,
    /// Its place.
    pub place: u32,
    /// How many bytes were written.
    pub length: usize,
}

impl Answer {
    const WRITTEN: u32 = 0;

    const DENIED: u32 = 1;

    const NO_MEMORY: u32 = 2;

    // The answer that tells of an outcome.
    pub(crate) fn of(outcome: Result<usize, Failure<ReportDenial>>) -> Answer
        ensures { result ≡ answer_of outcome }
    {
        match outcome {
            Ok(length) => Answer {
                status: Self::WRITTEN,
                length,
                ..Answer::default()
            },
            Err(Failure::Denied(denial)) => Answer {
                status: Self::DENIED,
                number: denial.number(),
                place: denial.place(),
                ..Answer::default()
            },
            Err(Failure::NoMemory) => Answer {
                status: Self::NO_MEMORY,
                ..Answer::default()
            },
        }
    }
}
