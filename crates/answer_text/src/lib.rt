//! What an order answers, as every program prints it.
#![tactic(auto)]

ghost use Rattle.std.specs.Prelude.{Some};
ghost use Rattle.answer_text.specs.Answers.{answer_text};

use axes::AxesWords;
use denied::DeniedWords;
use runs::answer::Answer;
use sheet_text::SheetText;
use std::fmt;

mod axes;
mod denied;

/// An answer as text: one line, or the lines of its sheet.
#[derive(Clone, Copy, Debug)]
pub struct AnswerText<'a>(pub &'a Answer);

impl fmt::Display for AnswerText<'_> {
    ghost output = { λ text. Some (answer_text text.0.now) };

    fn fmt<W: fmt::Write>(&self, f: &mut fmt::Formatter<W>) -> fmt::Result {
        match self.0 {
            Answer::Loaded(line) => writeln!(f, "LOADED {} {}", line.level, line.load),
            Answer::Struck(line) => writeln!(f, "STRUCK {} {}", line.level, line.load),
            Answer::Standing { level, sum } => writeln!(f, "STANDING {level} {sum}"),
            Answer::OnTrial => writeln!(f, "ON TRIAL"),
            Answer::Kept => writeln!(f, "KEPT"),
            Answer::Abandoned => writeln!(f, "ABANDONED"),
            Answer::Issued => writeln!(f, "ISSUED"),
            Answer::Reopened => writeln!(f, "REOPENED"),
            Answer::Released {
                levels,
                lines,
                weight,
            } => writeln!(f, "RELEASED {levels} {lines} {weight}"),
            Answer::Sheet {
                sheet: Ok(sheet),
                rows,
            } => write!(f, "{}", SheetText { sheet, rows }),
            Answer::Axes {
                shear: Ok(shear),
                axes,
            } => writeln!(
                f,
                "{}",
                AxesWords {
                    shear: *shear,
                    axes
                }
            ),
            Answer::Sheet {
                sheet: Err(denial),
                ..
            } => writeln!(f, "{}", DeniedWords(denial)),
            Answer::Axes {
                shear: Err(denial),
                ..
            } => writeln!(f, "{}", DeniedWords(denial)),
            Answer::Denied(denial) => writeln!(f, "{}", DeniedWords(denial)),
            Answer::OutOfState => writeln!(f, "OUT OF STATE"),
        }
    }
}
