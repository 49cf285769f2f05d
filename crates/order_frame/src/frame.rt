//! The frame that the records of an order file describe.
ghost use Rattle.std.specs.Prelude.{◌≡◌, IfOk};
ghost use Rattle.order_frame.specs.Frames.{frame_levels};
ghost use Rattle.order_frame.specs.OrderFrames.{frame_list, Framed, ToppedBy};
ghost use Rattle.order_frame.specs.Reasons.{Reasoned, ReasonTold};
ghost use Rattle.frames.specs.KitFrames.{made_list};
ghost use Rattle.frames.specs.KitLists.{kit_sound};
ghost use Rattle.frames.specs.OwnStoreys.{own_storeys};
ghost use Rattle.frames.specs.Stacks.{stacked_sound};
ghost use Rattle.order_frame.specs.declared.frame.OrderFrame.TheVariants.{Typed, Topped};

use frames::denial::FrameDenial;
use frames::frame::Frame;
use frames::kit::Kit;
use frames::topping::Topping;
use frames::typed::Typed;
use records::failure::Failure;
use records::kit_numbers::KitNumbers;
use records::level::Level;
use std::alloc::Global;

/// The levels of a file in a typed frame, or in a topping on its kit.
#[derive(Debug, Drop)]
pub enum OrderFrame {
    Typed(Typed),
    Topped(Topping<Kit>),
}

impl OrderFrame {
    /// The frame of the levels, laid as a table, or put on the kit from below; nothing is kept of one that is denied.
    pub fn new(
        kit: Option<KitNumbers>,
        levels: &[Level],
        heap: Global,
    ) -> Result<OrderFrame, Failure<FrameDenial>>
        ensures frame { Framed kit levels.now result }
        ensures list { IfOk result (λ frame. ⟦<OrderFrame as Frame>⟧.list frame ≡ frame_levels kit levels.now) }
        ensures reason { Reasoned kit levels.now result }
        ensures only { ReasonTold kit levels.now result }
    {
        make(kit, levels, heap)
    }
}

// Lays the levels, or puts them on the kit from below.
fn make(
    kit: Option<KitNumbers>,
    levels: &[Level],
    heap: Global,
) -> Result<OrderFrame, Failure<FrameDenial>>
    ensures { Framed kit levels.now result }
{
    match kit {
        None => {
            let mut typed = Typed::new(heap);
            typed.lay(levels)?;
            Ok(OrderFrame::Typed(typed))
        }
        Some(numbers) => Ok(OrderFrame::Topped(topped(numbers, levels)?)),
    }
}

// A kit with the levels put on it, from below, up to the first that is denied.
fn topped(numbers: KitNumbers, levels: &[Level]) -> Result<Topping<Kit>, FrameDenial>
    ensures { ToppedBy numbers levels.now result }
{
    let mut topping = Topping::new(Kit::new(numbers)?);
    for level in levels {
        topping.add(*level)?;
    }
    Ok(topping)
}

// An enum, and no `Box<dyn Frame>`: a box wants memory, and on a kit a frame is made without any.
impl Frame for OrderFrame {
    ghost list = { frame_list };

    ghost sound = { elim [
      | Typed t ↦ t.ok
      | Topped t ↦ stacked_sound (made_list t.below) (own_storeys t.own) (kit_sound t.below.numbers t.below.ok)
    ] };

    fn count(&self) -> u32 {
        match self {
            OrderFrame::Typed(typed) => typed.count(),
            OrderFrame::Topped(topping) => topping.count(),
        }
    }

    fn level(&self, k: u32) -> Option<Level> {
        match self {
            OrderFrame::Typed(typed) => typed.level(k),
            OrderFrame::Topped(topping) => topping.level(k),
        }
    }
}
