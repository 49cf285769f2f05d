//! A frame as it is listed: a heading, and a line a level.
ghost use Rattle.std.specs.Prelude.{◌≡◌, [], length, Some};
ghost use Rattle.tokens.specs.Text.{line_of};
ghost use Rattle.listing.specs.Listings.{heading, levels_text, row_words};

use frames::frame::Frame;
use records::height::LevelHeight;
use records::level::Level;
use std::fmt;

// The levels of this frame, as text.
#[derive(Drop)]
pub(crate) struct Listed<'a, F> {
    pub(crate) frame: &'a F,
}

// How many levels a frame has, what they weigh, and how high the top is.
#[derive(Drop)]
struct Heading<'a, F> {
    frame: &'a F,
}

// Level `number` of a frame, at this height over the ground, as its line tells it.
#[derive(Clone, Copy, Debug)]
struct Row<'a> {
    number: usize,
    level: &'a Level,
    height: LevelHeight,
}

impl fmt::Display for Row<'_> {
    ghost output = { λ row. Some (line_of (row_words row.number row.level.now row.height.0) []) };

    fn fmt<W: fmt::Write>(&self, f: &mut fmt::Formatter<W>) -> fmt::Result {
        writeln!(f, "{} {} {}", self.number, self.level.weight, self.height)
    }
}

impl<F: Frame> fmt::Display for Heading<'_, F> {
    ghost output = { λ head. Some (heading (F.Frame.list head.frame.now)) };

    fn fmt<W: fmt::Write>(&self, f: &mut fmt::Formatter<W>) -> fmt::Result {
        let count = self.frame.count();
        let weight = self.frame.total_weight();
        let top = self.frame.top();
        writeln!(f, "LEVELS {count} {weight} {top}")
    }
}

impl<F: Frame> fmt::Display for Listed<'_, F> {
    ghost output = { λ listed. Some (levels_text (F.Frame.list listed.frame.now)) };

    fn fmt<W: fmt::Write>(&self, f: &mut fmt::Formatter<W>) -> fmt::Result {
        let frame = self.frame;
        write!(f, "{}", Heading { frame })?;
        let mut height = LevelHeight::ground();
        for (below, level) in frame.levels().enumerate() {
            height = height.above(level.height).unwrap();
            let row = Row {
                number: below + 1,
                level: &level,
                height,
            };
            write!(f, "{row}")?;
        }
        Ok(())
    }
}
