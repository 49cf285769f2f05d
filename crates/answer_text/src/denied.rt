//! A denial's words.
ghost use Rattle.std.specs.Prelude.{Some};
ghost use Rattle.tokens.specs.Text.{joined};
ghost use Rattle.answer_text.specs.Answers.{denied_words};

use records::denial::Denial;
use std::fmt;

// The words of a call's denial, of whatever kind it is.
#[derive(Drop)]
pub(crate) struct DeniedWords<'a, D>(pub(crate) &'a D);

impl<D: Denial> fmt::Display for DeniedWords<'_, D> {
    ghost output = { λ words. Some (joined (denied_words (D.numbered words.0.now) (D.placed words.0.now))) };

    fn fmt<W: fmt::Write>(&self, f: &mut fmt::Formatter<W>) -> fmt::Result {
        let DeniedWords(denial) = self;
        write!(f, "DENIED {} {}", denial.number(), denial.place())
    }
}
