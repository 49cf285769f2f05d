//! What an order answers.
use orders::denial::OrderDenial;
use records::line::Line;
use seismic::axis::Axis;
use seismic::denial::{AxesDenial, SheetDenial};
use seismic::row::Row;
use seismic::sheet::Sheet;

/// The answer to a call. It gives back the table that the call lent.
#[derive(Debug, Drop)]
pub enum Answer {
    /// The line is booked.
    Loaded(Line),
    /// The line is taken off.
    Struck(Line),
    /// The loads on the level add up so.
    Standing {
        level: u32,
        sum: i32,
    },
    OnTrial,
    Kept,
    Abandoned,
    Issued,
    Reopened,
    Released {
        levels: u32,
        lines: u32,
        weight: u32,
    },
    Sheet {
        sheet: Result<Sheet, SheetDenial>,
        rows: Vec<Row>,
    },
    Axes {
        shear: Result<u32, AxesDenial>,
        axes: Vec<Axis>,
    },
    /// A load, a strike or a standing is denied.
    Denied(OrderDenial),
    /// The state of the order does not have this call.
    OutOfState,
}
