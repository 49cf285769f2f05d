//! An order over a frame, and what it tells in every state.
ghost use Rattle.std.specs.Prelude.{◌≡◌, ℕ, take};
ghost use Rattle.frames.specs.Levels.{Sound, level_at};
ghost use Rattle.orders.specs.Loads.{raised};
ghost use Rattle.orders.specs.Tables.{booked};

use crate::denial::OrderDenial;
use crate::line_table::LineTable;
use crate::loaded::{LoadedLevels, loaded};
use frames::frame::Frame;
use records::card::Card;
use records::level::Level;
use seismic::axes::direct_shears;
use seismic::axis::Axis;
use seismic::denial::{AxesDenial, SheetDenial};
use seismic::row::Row;
use seismic::sheet::Sheet;

/// A frame with loads on its levels. Its state says which calls it has.
#[derive(Debug, Drop)]
pub struct Order<F: Frame, S> {
    pub(crate) frame: F,
    pub(crate) lines: LineTable,
    pub(crate) state: S,
    // With the lines that stand, and with the oldest n of them, the levels keep a frame's limits. So strike and abandon,
    // which leave the oldest, keep them too.
    pub ghost bears: { (n : ℕ) → Sound (raised (take n (booked lines)) (F.list frame)) },
}

impl<F: Frame, S> Order<F, S> {
    ghost use Rattle.orders.specs.Calls.{Stands};
    ghost use Rattle.orders.specs.Orders.{order_list};
    ghost use Rattle.seismic.specs.Sheets.{Sheeted};
    ghost use Rattle.seismic.specs.Laws.{LawOf};
    ghost use Rattle.seismic.specs.Axes.{OnAxes, LawOnAxes};

    /// The sum of the loads that stand on a level, in tenths of a tonne: those of this order's own lines.
    pub fn standing(&self, level: u32) -> Result<i32, OrderDenial>
        ensures { Stands (F.Frame.list self.now.frame) (booked self.now.lines) level result }
    {
        if !(1..=self.frame.count()).contains(&level) {
            return Err(OrderDenial::NoSuchLevel { level });
        }
        Ok(self.lines.standing(level))
    }

    /// The sheet of the frame with the loads that stand on it. It writes a row a level into the first of `rows`, from
    /// below; where it is denied it writes none.
    pub fn sheet(&self, card: &Card, rows: &mut [Row]) -> Result<Sheet, SheetDenial>
        ensures answer { Sheeted card.now (order_list F.Frame.list self.now) rows.old result rows.new }
        ensures law { LawOf card.now (order_list F.Frame.list self.now) result rows.new }
    {
        Sheet::new(&LoadedLevels { order: self }, card, rows)
    }

    /// Gives each axis its part of the shear of a storey, under the loads that stand, and answers that shear in kgf.
    /// Where it is denied the axes stay as they were.
    pub fn axes(&self, card: &Card, storey: u32, axes: &mut [Axis]) -> Result<u32, AxesDenial>
        ensures answer { OnAxes card.now (order_list F.Frame.list self.now) storey axes.old result axes.new }
        ensures law { LawOnAxes card.now (order_list F.Frame.list self.now) storey axes.old result axes.new }
    {
        direct_shears(&LoadedLevels { order: self }, card, storey, axes)
    }

    // Level k with the loads that stand on it.
    #[tactic(auto, using(crate::proofs::Bearing::not_told))]
    pub(crate) fn loaded_level(&self, k: u32) -> Option<Level>
        ensures { result ≡ level_at (order_list F.Frame.list self.now) k }
    {
        let level = self.frame.level(k)?;
        Some(loaded(level, self.lines.standing(k)))
    }
}
