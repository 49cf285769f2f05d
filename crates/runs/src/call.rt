//! What is asked of an order.
use records::card::Card;
use records::line::Line;
use seismic::axis::Axis;
use seismic::row::Row;

/// A call with its arguments, and with the table that it lends.
#[derive(Debug, Drop)]
pub enum Call {
    Load(Line),
    Strike,
    Standing {
        level: u32,
    },
    Trial,
    Keep,
    Abandon,
    Issue,
    Reopen,
    Release,
    Sheet {
        card: Card,
        rows: Vec<Row>,
    },
    Axes {
        card: Card,
        storey: u32,
        axes: Vec<Axis>,
    },
}
