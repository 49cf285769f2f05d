//! The words of a storey's shear on its axes.
ghost use Rattle.std.specs.Prelude.{Some};
ghost use Rattle.tokens.specs.Text.{joined};
ghost use Rattle.answer_text.specs.Answers.{axes_words};

use seismic::axis::Axis;
use std::fmt;

// The words of a storey's shear and what falls to each axis.
#[derive(Clone, Copy, Debug)]
pub(crate) struct AxesWords<'a> {
    pub(crate) shear: u32,
    pub(crate) axes: &'a [Axis],
}

impl fmt::Display for AxesWords<'_> {
    ghost output = { λ words. Some (joined (axes_words words.shear words.axes.now)) };

    fn fmt<W: fmt::Write>(&self, f: &mut fmt::Formatter<W>) -> fmt::Result {
        write!(f, "AXES {}", self.shear)?;
        for axis in self.axes {
            write!(f, " {}", axis.direct_shear)?;
        }
        Ok(())
    }
}
