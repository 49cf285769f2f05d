//! The static seismic sheet of a frame under a card: storey shears, movements, torsional moments,
//! separations and a verdict; and a storey's shear on its axes.
#![tactic(auto)]

mod admit;
pub mod axes;
pub mod axis;
pub mod denial;
mod response;
pub mod row;
mod rows;
pub mod sheet;
mod spread_out;
mod storey;
mod storeys;
pub mod verdict;
mod walk;
