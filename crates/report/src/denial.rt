//! Why a report is not written.
ghost use Rattle.report.specs.Buffers.{denial_number, denial_place};

use crate::BUFFER_SIZE;
use records::denial::Denial;

/// What is wrong with what the caller lends.
#[derive(Clone, Copy, Debug, PartialEq, Eq)]
pub enum ReportDenial {
    /// The buffer does not hold as many bytes as a report may need.
    BufferTooShort,
}

impl Denial for ReportDenial {
    ghost numbered = { denial_number };

    ghost placed = { denial_place };

    fn number(&self) -> u32 {
        match self {
            ReportDenial::BufferTooShort => 37,
        }
    }

    fn place(&self) -> u32 {
        match self {
            ReportDenial::BufferTooShort => BUFFER_SIZE as u32,
        }
    }
}
