//! What a sheet reads of an order.
ghost use Rattle.std.specs.Prelude.{◌≡◌, ◌≤◌, ◌+ℤ◌, pos};
ghost use Rattle.orders.specs.Loads.{loaded, natural};

use crate::order::Order;
use frames::frame::Frame;
use records::level::Level;

// The levels of an order with the loads that stand on them. A sheet is wanted of an order in every state; only an issued
// one is a frame that may be held.
#[derive(Clone, Copy, Debug)]
pub(crate) struct LoadedLevels<'a, F: Frame, S> {
    pub(crate) order: &'a Order<F, S>,
}

impl<F: Frame, S> Frame for LoadedLevels<'_, F, S> {
    ghost use Rattle.orders.specs.Orders.{order_list};
    ghost use Rattle.orders.specs.Sound.{order_sound};

    ghost list = { λ v. order_list F.Frame.list v.order.now };

    ghost sound = { λ v. order_sound v.order.now };

    #[tactic(auto, using(crate::proofs::Raising::raised_length))]
    fn count(&self) -> u32 {
        self.order.frame.count()
    }

    fn level(&self, k: u32) -> Option<Level> {
        self.order.loaded_level(k)
    }
}

// A level with a load on it.
pub(crate) fn loaded(level: Level, load: i32) -> Level
    requires { natural (pos level.weight +ℤ load) ≤ 5000 }
    ensures { result ≡ loaded load level }
{
    Level {
        weight: level.weight.saturating_add_signed(load),
        ..level
    }
}
