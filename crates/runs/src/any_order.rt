//! An order in whichever state it is, and the calls that are made on it.
ghost use Rattle.std.specs.Prelude.{◌≡◌};
ghost use Rattle.orders.specs.Calls.{load_denial};
ghost use Rattle.orders.specs.Tables.{booked as lines_of};
ghost use Rattle.runs.specs.Answers.{AnswerOf, AxesAnswer, LoadAnswer, ReleaseAnswer, SheetAnswer, StandingAnswer, StrikeAnswer};
ghost use Rattle.runs.specs.Tally.{after, struck, with_line};

use crate::answer::Answer;
use crate::call::Call;
use frames::frame::Frame;
use orders::order::Order;
use orders::state::{Issued, OnTrial, Open, Working};
use records::card::Card;
use records::line::Line;
use seismic::axis::Axis;
use seismic::row::Row;

// An order that goes from state to state as calls come.
#[derive(Debug, Drop)]
pub(crate) enum AnyOrder<F: Frame> {
    Open(Order<F, Open>),
    OnTrial(Order<F, OnTrial>),
    Issued(Order<F, Issued>),
}

impl<F: Frame> AnyOrder<F> {
    ghost use Rattle.runs.specs.States.{frame_of, tally_of};
    ghost use Rattle.runs.specs.declared.any_order.AnyOrder.TheVariants.{Open as IsOpen, OnTrial as IsOnTrial, Issued as IsIssued};

    // Makes a call, and tells what it leaves and answers.
    pub(crate) fn make(self, call: Call) -> (AnyOrder<F>, Answer)
        ensures frame { frame_of result.0 ≡ frame_of self }
        ensures tally { tally_of result.0 ≡ after (F.Frame.list (frame_of self)) (tally_of self) call }
        ensures answer { AnswerOf (F.Frame.list (frame_of self)) (tally_of self) call result.1 }
    {
        match self {
            AnyOrder::Open(order) => Self::make_open(order, call),
            AnyOrder::OnTrial(order) => Self::make_on_trial(order, call),
            AnyOrder::Issued(order) => Self::make_issued(order, call),
        }
    }

    // On an open order.
    fn make_open(mut order: Order<F, Open>, call: Call) -> (AnyOrder<F>, Answer)
        ensures frame { frame_of result.0 ≡ order.frame }
        ensures tally { tally_of result.0 ≡ after (F.Frame.list order.frame) (tally_of (IsOpen order)) call }
        ensures answer { AnswerOf (F.Frame.list order.frame) (tally_of (IsOpen order)) call result.1 }
    {
        let answer = match call {
            Call::Load(line) => load(&mut order, line),
            Call::Strike => strike(&mut order),
            Call::Standing { level } => standing(&order, level),
            Call::Trial => return (AnyOrder::OnTrial(order.trial()), Answer::OnTrial),
            Call::Issue => return (AnyOrder::Issued(order.issue()), Answer::Issued),
            Call::Sheet { card, rows } => sheet(&order, &card, rows),
            Call::Axes { card, storey, axes } => shears(&order, &card, storey, axes),
            Call::Keep | Call::Abandon | Call::Reopen | Call::Release => Answer::OutOfState,
        };
        (AnyOrder::Open(order), answer)
    }

    // On an order on trial.
    fn make_on_trial(mut order: Order<F, OnTrial>, call: Call) -> (AnyOrder<F>, Answer)
        ensures frame { frame_of result.0 ≡ order.frame }
        ensures tally { tally_of result.0 ≡ after (F.Frame.list order.frame) (tally_of (IsOnTrial order)) call }
        ensures answer { AnswerOf (F.Frame.list order.frame) (tally_of (IsOnTrial order)) call result.1 }
    {
        let answer = match call {
            Call::Load(line) => load(&mut order, line),
            Call::Strike => strike(&mut order),
            Call::Standing { level } => standing(&order, level),
            Call::Keep => return (AnyOrder::Open(order.keep()), Answer::Kept),
            Call::Abandon => return (AnyOrder::Open(order.abandon()), Answer::Abandoned),
            Call::Sheet { card, rows } => sheet(&order, &card, rows),
            Call::Axes { card, storey, axes } => shears(&order, &card, storey, axes),
            Call::Trial | Call::Issue | Call::Reopen | Call::Release => Answer::OutOfState,
        };
        (AnyOrder::OnTrial(order), answer)
    }

    // On an issued order.
    fn make_issued(order: Order<F, Issued>, call: Call) -> (AnyOrder<F>, Answer)
        ensures frame { frame_of result.0 ≡ order.frame }
        ensures tally { tally_of result.0 ≡ after (F.Frame.list order.frame) (tally_of (IsIssued order)) call }
        ensures answer { AnswerOf (F.Frame.list order.frame) (tally_of (IsIssued order)) call result.1 }
    {
        let answer = match call {
            Call::Standing { level } => standing(&order, level),
            Call::Reopen => return (AnyOrder::Open(order.reopen()), Answer::Reopened),
            Call::Release => release(&order),
            Call::Sheet { card, rows } => sheet(&order, &card, rows),
            Call::Axes { card, storey, axes } => shears(&order, &card, storey, axes),
            Call::Load(_) | Call::Strike | Call::Trial | Call::Keep | Call::Abandon | Call::Issue =>
                Answer::OutOfState,
        };
        (AnyOrder::Issued(order), answer)
    }
}

// Books a line, or tells why not.
fn load<F: Frame, S: Working>(order: &mut Order<F, S>, line: Line) -> Answer
    ensures answer { LoadAnswer (F.Frame.list order.old.frame) (lines_of order.old.lines) line result }
    ensures lines { lines_of order.new.lines ≡ with_line (load_denial (F.Frame.list order.old.frame) (lines_of order.old.lines) line) (lines_of order.old.lines) line }
    ensures frame { order.new.frame ≡ order.old.frame }
    ensures state { order.new.state ≡ order.old.state }
{
    match order.load(line) {
        Ok(()) => Answer::Loaded(line),
        Err(denial) => Answer::Denied(denial),
    }
}

// Takes off the newest line within reach, or tells that none is.
fn strike<F: Frame, S: Working>(order: &mut Order<F, S>) -> Answer
    ensures answer { StrikeAnswer (S.Working.bound_of order.old.state) (lines_of order.old.lines) result }
    ensures lines { lines_of order.new.lines ≡ struck (S.Working.bound_of order.old.state) (lines_of order.old.lines) }
    ensures frame { order.new.frame ≡ order.old.frame }
    ensures state { order.new.state ≡ order.old.state }
{
    match order.strike() {
        Ok(line) => Answer::Struck(line),
        Err(denial) => Answer::Denied(denial),
    }
}

// Tells what stands on a level.
fn standing<F: Frame, S>(order: &Order<F, S>, level: u32) -> Answer
    ensures { StandingAnswer (F.Frame.list order.now.frame) (lines_of order.now.lines) level result }
{
    match order.standing(level) {
        Ok(sum) => Answer::Standing { level, sum },
        Err(denial) => Answer::Denied(denial),
    }
}

// Makes a sheet in the rows that the call lends, and gives them back.
fn sheet<F: Frame, S>(order: &Order<F, S>, card: &Card, mut rows: Vec<Row>) -> Answer
    ensures { SheetAnswer (F.Frame.list order.now.frame) (lines_of order.now.lines) card.now rows.items result }
{
    let sheet = order.sheet(card, &mut rows);
    Answer::Sheet { sheet, rows }
}

// Gives a storey's shear to the axes that the call lends, and gives them back.
fn shears<F: Frame, S>(order: &Order<F, S>, card: &Card, storey: u32, mut axes: Vec<Axis>) -> Answer
    ensures { AxesAnswer (F.Frame.list order.now.frame) (lines_of order.now.lines) card.now storey axes.items result }
{
    let shear = order.axes(card, storey, &mut axes);
    Answer::Axes { shear, axes }
}

// Tells the counts and the weight of an issued order.
fn release<F: Frame>(order: &Order<F, Issued>) -> Answer
    ensures { ReleaseAnswer (F.Frame.list order.now.frame) (lines_of order.now.lines) result }
{
    let (levels, lines, weight) = order.release();
    Answer::Released {
        levels,
        lines,
        weight,
    }
}
