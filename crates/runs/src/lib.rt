//! Runs of calls on an order: what a drawing office does in a day, and the law that every such run keeps.
#![tactic(auto)]

ghost use Rattle.std.specs.Prelude.{◌≡◌, ◌≤◌, [], IfOk, IfErr, vec_len, vec_capacity};
ghost use Rattle.orders.specs.Tables.{booked as lines_of};
ghost use Rattle.runs.specs.Runs.{RunLaw};

use answer::Answer;
use any_order::AnyOrder;
use call::Call;
use frames::frame::Frame;
use orders::order::Order;
use orders::state::Open;
use std::alloc::{AllocFailed, Global};

pub mod answer;
mod any_order;
pub mod call;

/// One answer a call, in the order of the calls. Opens a new order over a frame, and makes the calls one after another, each
/// on what those before it left. A call that the state of the order does not have changes nothing, and is answered so. Where
/// there is no memory for the answers or the lines, no call is made, and frame and calls are handed back.
// Kept a call of its own: a run's cost can then be read off any program.
#[inline(never)]
pub fn run<F: Frame + Drop>(
    frame: F,
    calls: Vec<Call>,
    heap: Global,
) -> Result<Vec<Answer>, AllocFailed<(F, Vec<Call>)>>
    ensures law { IfOk result (λ answers. RunLaw (F.Frame.list frame) calls.items answers.items) }
    ensures returned { IfErr result (λ e. e.value ≡ (frame, calls)) }
{
    let Ok(answers) = Vec::with_capacity(heap, calls.len()) else {
        return Err(AllocFailed {
            value: (frame, calls),
        });
    };
    match Order::open(frame, heap) {
        Ok(order) => Ok(make_all(order, calls, answers)),
        Err(failed) => Err(AllocFailed {
            value: (failed.value, calls),
        }),
    }
}

// Makes the calls on a new order, and puts their answers down, for which there is room.
fn make_all<F: Frame + Drop>(
    new: Order<F, Open>,
    calls: Vec<Call>,
    mut answers: Vec<Answer>,
) -> Vec<Answer>
    requires new { lines_of new.lines ≡ [] }
    requires none { answers.items ≡ [] }
    requires room { vec_len calls ≤ vec_capacity answers }
    ensures { RunLaw (F.Frame.list new.frame) calls.items result.items }
{
    let mut order = AnyOrder::Open(new);
    for call in calls {
        let (after, answer) = order.make(call);
        order = after;
        answers.push_reserved(answer);
    }
    answers
}
