//! What else may keep a topping: a type with no bound of its own, one that holds a topping on a topping, and one that leads
//! back to itself.
ghost use Rattle.std.specs.Prelude.{◌≡◌, length};
ghost use Rattle.own_frame.specs.declared.tower.Chain.{out-Chain};

use frames::frame::Frame;
use frames::topping::Topping;

/// A frame with two toppings, one on the other.
#[derive(Drop)]
pub struct Tower<F> {
    upper: Topping<Topping<F>>,
}

impl<F: Frame> Tower<F> {
    /// The frame, with no storey on it as yet.
    pub fn new(below: F) -> Tower<F>
        ensures { ⟦<Topping<Topping<F>> as Frame>⟧.list result.upper ≡ F.Frame.list below }
    {
        Tower {
            upper: Topping::new(Topping::new(below)),
        }
    }

    /// How many levels it has.
    pub fn count(&self) -> u32
        ensures { result ≡ length (⟦<Topping<Topping<F>> as Frame>⟧.list self.now.upper) }
    {
        self.upper.count()
    }
}

/// A topping, and those kept before it.
#[derive(Drop)]
pub struct Chain<F> {
    last: Topping<F>,
    before: Option<Box<Chain<F>>>,
}

impl<F> Chain<F> {
    /// A chain of one.
    pub fn of(last: Topping<F>) -> Chain<F>
        ensures { (out-Chain _ result).last ≡ last }
    {
        Chain { last, before: None }
    }
}

impl<F: Frame> Chain<F> {
    /// How many levels the last topping's frame has.
    pub fn count(&self) -> u32
        ensures { result ≡ length (⟦<Topping<F> as Frame>⟧.list (out-Chain _ self.now).last) }
    {
        self.last.count()
    }
}
