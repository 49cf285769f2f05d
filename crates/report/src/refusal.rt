//! Why an order file has no sheet.
ghost use Rattle.std.specs.Prelude.{◌≡◌, []};
ghost use Rattle.pen.specs.Tails.{CopiedTo};
ghost use Rattle.tokens.specs.Text.{line_of};
ghost use Rattle.report.specs.Refusals.{refusal_number, refusal_line, refusal_place, refused_words};
ghost use Rattle.report.specs.declared.refusal.Refusal.TheVariants.{NoFrame};

use order_frame::refusal::{Refusal as FrameRefusal, RefusedWords};
use orders::denial::OrderDenial;
use records::denial::Denial;
use seismic::denial::ShearDenial;

// What is wrong, and on which line of the file; line 0 where no line is to blame.
#[derive(Clone, Copy, Debug, PartialEq, Eq)]
pub(crate) enum Refusal {
    // The file is faulty, or its frame is denied.
    NoFrame(FrameRefusal),
    // The order denies the load on this line.
    NoLoad { denial: OrderDenial, line: u32 },
    // There are no levels, or the card is denied.
    NoSheet { denial: ShearDenial, line: u32 },
}

impl Refusal {
    // Writes its line to the front of `out`, where it holds it.
    pub(crate) fn write(&self, out: &mut [u8]) -> Option<usize>
        ensures { CopiedTo (line_of (refused_words self.now) []) out.old result out.new }
    {
        let line = self.line();
        RefusedWords { denial: self, line }.write_line(out)
    }

    // The line of the file that is to blame.
    fn line(&self) -> u32
        ensures { result ≡ refusal_line self.now }
    {
        match self {
            Refusal::NoFrame(refusal) => refusal.line(),
            Refusal::NoLoad { line, .. } | Refusal::NoSheet { line, .. } => *line,
        }
    }
}

impl Denial for Refusal {
    ghost numbered = { refusal_number };

    ghost placed = { refusal_place };

    fn number(&self) -> u32 {
        match self {
            Refusal::NoFrame(refusal) => refusal.number(),
            Refusal::NoLoad { denial, .. } => denial.number(),
            Refusal::NoSheet { denial, .. } => denial.number(),
        }
    }

    fn place(&self) -> u32 {
        match self {
            Refusal::NoFrame(refusal) => refusal.place(),
            Refusal::NoLoad { denial, .. } => denial.place(),
            Refusal::NoSheet { denial, .. } => denial.place(),
        }
    }
}

impl From<FrameRefusal> for Refusal {
    ghost from_gives = { λ refusal r. r ≡ NoFrame refusal };

    fn from(refusal: FrameRefusal) -> Refusal {
        Refusal::NoFrame(refusal)
    }
}
