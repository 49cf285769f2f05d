//! An issued order is a frame again.
use crate::order::Order;
use crate::state::Issued;
use frames::frame::Frame;
use records::level::Level;

impl<F: Frame> Frame for Order<F, Issued> {
    ghost use Rattle.orders.specs.Orders.{order_list};
    ghost use Rattle.orders.specs.Sound.{order_sound};

    ghost list = { order_list F.Frame.list };

    ghost sound = { λ o. order_sound o };

    #[tactic(auto, using(crate::proofs::Raising::raised_length))]
    fn count(&self) -> u32 {
        self.frame.count()
    }

    fn level(&self, k: u32) -> Option<Level> {
        self.loaded_level(k)
    }
}
