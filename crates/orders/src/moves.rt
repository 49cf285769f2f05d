//! How an order goes from state to state. A move takes the order, so that no call of the old state can be made on it.
ghost use Rattle.std.specs.Prelude.{◌≡◌, [], length, take, IfOk, IfErr};
ghost use Rattle.frames.specs.Levels.{weight_of};
ghost use Rattle.orders.specs.Loads.{raised};
ghost use Rattle.orders.specs.Tables.{booked};

use crate::line_table::LineTable;
use crate::order::Order;
use crate::state::{Issued, OnTrial, Open, Working};
use frames::frame::Frame;
use std::alloc::{AllocFailed, Global};

impl<F: Frame> Order<F, Open> {
    /// A new order over a frame, with no line. Room for all lines is reserved here; where there is no memory for it the
    /// frame is handed back.
    #[tactic(auto, using(crate::proofs::Bearing::bears_none))]
    pub fn open(frame: F, heap: Global) -> Result<Order<F, Open>, AllocFailed<F>>
        ensures frame { IfOk result (λ o. o.frame ≡ frame) }
        ensures lines { IfOk result (λ o. booked o.lines ≡ []) }
        ensures reach { IfOk result (λ o. ⟦<Open as Working>⟧.bound_of o.state ≡ 0) }
        ensures returned { IfErr result (λ e. e.value ≡ frame) }
    {
        match LineTable::new(heap) {
            Ok(lines) => Ok(Order {
                frame,
                lines,
                state: Open,
            }),
            Err(_no_memory) => Err(AllocFailed { value: frame }),
        }
    }

    /// The same order, on trial.
    pub fn trial(self) -> Order<F, OnTrial>
        ensures frame { result.frame ≡ self.frame }
        ensures lines { booked result.lines ≡ booked self.lines }
        ensures bound { result.state.bound ≡ length (booked self.lines) }
        ensures reach { ⟦<OnTrial as Working>⟧.bound_of result.state ≡ length (booked self.lines) }
    {
        let bound = self.lines.count();
        self.moved(OnTrial { bound })
    }

    /// The same order, issued: a frame of its levels with the loads that stand on them.
    pub fn issue(self) -> Order<F, Issued>
        ensures frame { result.frame ≡ self.frame }
        ensures lines { booked result.lines ≡ booked self.lines }
        ensures list { ⟦<Order<F, Issued> as Frame>⟧.list result ≡ raised (booked self.lines) (F.Frame.list self.frame) }
    {
        self.moved(Issued)
    }
}

impl<F: Frame> Order<F, OnTrial> {
    /// Ends the trial with all lines.
    pub fn keep(self) -> Order<F, Open>
        ensures frame { result.frame ≡ self.frame }
        ensures lines { booked result.lines ≡ booked self.lines }
        ensures reach { ⟦<Open as Working>⟧.bound_of result.state ≡ 0 }
    {
        self.moved(Open)
    }

    /// Ends the trial with the lines that stood when it began, and are out of the reach of strike.
    pub fn abandon(mut self) -> Order<F, Open>
        ensures frame { result.frame ≡ self.frame }
        ensures lines { booked result.lines ≡ take self.state.bound (booked self.lines) }
        ensures reach { ⟦<Open as Working>⟧.bound_of result.state ≡ 0 }
    {
        let bound = self.state.bound;
        self.lines.cut(bound);
        self.moved(Open)
    }
}

impl<F: Frame> Order<F, Issued> {
    ghost use Rattle.orders.specs.Orders.{order_list};

    /// The same order, open again.
    pub fn reopen(self) -> Order<F, Open>
        ensures frame { result.frame ≡ self.frame }
        ensures lines { booked result.lines ≡ booked self.lines }
        ensures reach { ⟦<Open as Working>⟧.bound_of result.state ≡ 0 }
    {
        self.moved(Open)
    }

    /// How many levels the order has, how many lines stand, and the total weight in tenths of a tonne.
    #[tactic(auto, using(crate::proofs::Raising::raised_length))]
    pub fn release(&self) -> (u32, u32, u32)
        ensures levels { result.0 ≡ length (F.Frame.list self.now.frame) }
        ensures lines { result.1 ≡ length (booked self.now.lines) }
        ensures weight { result.2 ≡ weight_of (order_list F.Frame.list self.now) }
    {
        (self.count(), self.lines.count(), self.total_weight())
    }
}

impl<F: Frame, S: Drop> Order<F, S> {
    // The same order in another state.
    fn moved<T>(self, state: T) -> Order<F, T>
        ensures frame { result.frame ≡ self.frame }
        ensures lines { result.lines ≡ self.lines }
        ensures state { result.state ≡ state }
    {
        let Order {
            frame,
            lines,
            state: _,
        } = self;
        Order {
            frame,
            lines,
            state,
        }
    }
}
