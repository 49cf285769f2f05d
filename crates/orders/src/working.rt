//! Loads are booked and struck while an order is open or on trial.
ghost use Rattle.std.specs.Prelude.{◌≡◌, ◌<◌, ◌≤ℤ◌, [], ◌∷◌, ◌++◌, None, Some, pos, negsuc, length};
ghost use Rattle.frames.specs.Levels.{level_at};
ghost use Rattle.orders.specs.Loads.{standing, load_fits};
ghost use Rattle.orders.specs.Tables.{booked};
ghost use Rattle.orders.specs.Calls.{line_denial, load_denial, bears, Judged, Loads, LoadsWhen, Strikes};

use crate::denial::OrderDenial;
use crate::line_table::MOST_LINES;
use crate::order::Order;
use crate::state::Working;
use frames::frame::Frame;
use records::level::Level;
use records::line::Line;

// Tenths of a tonne, either way.
const MOST_LOAD: i32 = 5_000;

impl<F: Frame, S: Working> Order<F, S> {
    /// Books a line: its load then stands on its level. Where it is denied no line is booked.
    pub fn load(&mut self, line: Line) -> Result<(), OrderDenial>
        ensures answer { Loads (F.Frame.list self.old.frame) (booked self.old.lines) line result (booked self.new.lines) }
        ensures law { LoadsWhen (F.Frame.list self.old.frame) (booked self.old.lines) line result }
        ensures frame { self.new.frame ≡ self.old.frame }
        ensures state { self.new.state ≡ self.old.state }
    {
        self.judge(&line)?;
        self.book(line);
        Ok(())
    }

    /// Takes off the newest line within reach and answers it. While the order is open all lines are within reach; on trial
    /// those that stood when it began are not.
    pub fn strike(&mut self) -> Result<Line, OrderDenial>
        ensures answer { Strikes (S.Working.bound_of self.old.state) (booked self.old.lines) result (booked self.new.lines) }
        ensures frame { self.new.frame ≡ self.old.frame }
        ensures state { self.new.state ≡ self.old.state }
    {
        if self.lines.count() <= self.state.bound() {
            return Err(OrderDenial::NothingToStrike);
        }
        Ok(self.take_newest())
    }

    // Takes off the newest line.
    fn take_newest(&mut self) -> Line
        requires { 0 < length (booked self.old.lines) }
        ensures lines { booked self.old.lines ≡ booked self.new.lines ++ result ∷ [] }
        ensures frame { self.new.frame ≡ self.old.frame }
        ensures state { self.new.state ≡ self.old.state }
    {
        self.lines.take_newest()
    }

    // Whether a line may be booked, with the law of it.
    #[tactic(auto, using(crate::proofs::Judging::loads_when))]
    fn judge(&self, line: &Line) -> Result<(), OrderDenial>
        ensures answer { Judged (load_denial (F.Frame.list self.now.frame) (booked self.now.lines) line.now) result }
        ensures law { LoadsWhen (F.Frame.list self.now.frame) (booked self.now.lines) line.now result }
    {
        self.judge_line(line)
    }

    // Whether a line may be booked.
    fn judge_line(&self, line: &Line) -> Result<(), OrderDenial>
        ensures { Judged (load_denial (F.Frame.list self.now.frame) (booked self.now.lines) line.now) result }
    {
        let number = line.level;
        let level = self
            .frame
            .level(number)
            .ok_or(OrderDenial::NoSuchLevel { level: number })?;
        judge(
            &level,
            self.lines.standing(number),
            self.lines.count(),
            line,
        )
    }

    // Puts a line on that may be booked.
    #[tactic(auto, using(crate::proofs::Bearing::bears_more, crate::proofs::Bearing::placed))]
    fn book(&mut self, line: Line)
        requires { load_denial (F.Frame.list self.old.frame) (booked self.old.lines) line ≡ None }
        ensures lines { booked self.new.lines ≡ booked self.old.lines ++ line ∷ [] }
        ensures frame { self.new.frame ≡ self.old.frame }
        ensures state { self.new.state ≡ self.old.state }
    {
        self.lines.book(line);
    }
}

// Whether a line may be booked on the level that it names, over so many lines, of which the loads on this level add up so.
fn judge(level: &Level, standing: i32, lines: u32, line: &Line) -> Result<(), OrderDenial>
    requires low { negsuc 319999 ≤ℤ standing }
    requires high { standing ≤ℤ pos 320000 }
    ensures { Judged (line_denial (Some level.now) standing lines line.now) result }
{
    let number = line.level;
    if !load_fits(line.load) {
        return Err(OrderDenial::LoadOutOfRange { level: number });
    }
    if !bears(level, standing + line.load) {
        return Err(OrderDenial::WeightOutOfRange { level: number });
    }
    if lines >= MOST_LINES {
        return Err(OrderDenial::NoRoom { level: number });
    }
    Ok(())
}

// Whether a load is in its range.
fn load_fits(load: i32) -> bool
    ensures { result ≡ load_fits load }
{
    load != 0 && (-MOST_LOAD..=MOST_LOAD).contains(&load)
}

// Whether a level weighs neither too little nor too much with this load.
fn bears(level: &Level, load: i32) -> bool
    ensures { result ≡ bears level.now load }
{
    let weight = level.weight as i64 + load as i64;
    (1..=Level::MOST_WEIGHT as i64).contains(&weight)
}
