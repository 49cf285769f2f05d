//! What an order file holds.
ghost use Rattle.std.specs.Prelude.{◌≤◌, vec_len};

use records::card::Card;
use records::kit_numbers::KitNumbers;
use records::level::Level;
use records::line::Line;

/// The records of an order file. With a kit, the levels are those that stand on top of it.
#[derive(Debug, Drop)]
pub struct OrderFile {
    pub kit: Option<KitNumbers>,
    pub levels: Vec<Level>,
    pub loads: Vec<Line>,
    pub card: Card,
    ghost few_levels: { vec_len levels ≤ 24 },
    ghost few_loads: { vec_len loads ≤ 64 },
}
