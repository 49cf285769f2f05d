//! A frame with up to eight storeys of its own over another.
ghost use Rattle.std.specs.Prelude.{◌≡◌, ◌+◌, ◌≤◌, [], ◌∷◌, ◌++◌, length, None};
ghost use Rattle.frames.specs.Levels.{top_of};
ghost use Rattle.frames.specs.OwnStoreys.{own_storeys};
ghost use Rattle.frames.specs.Tables.{Checked};
ghost use Rattle.frames.specs.Additions.{add_denial};

use crate::denial::FrameDenial;
use crate::frame::Frame;
use crate::listed::level_of;
use crate::stack::Stack;
use crate::storeys::Storeys;
use records::height::LevelHeight;
use records::level::Level;
use records::limits::MOST_STOREYS;

/// Another frame with storeys on it.
// No bound and no fact about the list below stand here: a type that holds a topping would have to repeat the bound, and one
// that holds a topping on a topping of any frame, or leads back to itself, could not be stated. So which storeys stand is
// judged when it is asked.
#[derive(Debug, Drop)]
pub struct Topping<F> {
    below: F,
    own: Storeys,
}

impl<F: Frame> Topping<F> {
    ghost use Rattle.frames.specs.Toppings.{topped, own_count, denial_over, Added};

    /// The frame below, with no storey on it as yet.
    pub fn new(below: F) -> Topping<F>
        ensures same { result.below ≡ below }
        ensures list { ⟦<Topping<F> as Frame>⟧.list result ≡ F.Frame.list below }
    {
        Topping {
            below,
            own: Storeys::none(),
        }
    }

    /// The frame with one level more on top; where it is denied the list stays as it was.
    pub fn add(&mut self, level: Level) -> Result<(), FrameDenial>
        ensures answer { Added (F.Frame.list self.old.below) (⟦<Topping<F> as Frame>⟧.list self.old)
            (⟦<Topping<F> as Frame>⟧.list self.new) level result }
        ensures below { self.new.below ≡ self.old.below }
    {
        let own = self.standing();
        self.admit(own, &level)?;
        self.put(own, level);
        Ok(())
    }

    // Whether one level more may come on top, where so many of its own storeys stand.
    fn admit(&self, own: u32, level: &Level) -> Result<(), FrameDenial>
        requires { length (F.Frame.list self.now.below) + own ≡ length (topped F.Frame.list self.now) }
        ensures { Checked (denial_over (F.Frame.list self.now.below) (topped F.Frame.list self.now) level.now) result }
    {
        judge_added(Stack::of(self), own, level)
    }

    // Puts a level that was admitted onto those of its own that stand.
    fn put(&mut self, own: u32, level: Level)
        requires stand { length (F.Frame.list self.old.below) + own ≡ length (topped F.Frame.list self.old) }
        requires good { denial_over (F.Frame.list self.old.below) (topped F.Frame.list self.old) level ≡ None }
        ensures list { topped F.Frame.list self.new ≡ topped F.Frame.list self.old ++ level ∷ [] }
        ensures more { own_count (F.Frame.list self.old.below) (topped F.Frame.list self.new) ≡ own_count (F.Frame.list self.old.below) (topped F.Frame.list self.old) + 1 }
        ensures below { self.new.below ≡ self.old.below }
    {
        self.own.put(own, level);
    }

    // How many of its own storeys stand.
    fn standing(&self) -> u32
        ensures { length (F.Frame.list self.now.below) + result ≡ length (topped F.Frame.list self.now) }
    {
        let stack = self.stack();
        stack.levels - self.below.count()
    }

    // The levels of the frame below, and those of its own storeys that stand on them.
    fn stack(&self) -> Stack
        ensures levels { result.levels ≡ length (topped F.Frame.list self.now) }
        ensures top { result.top ≡ top_of (topped F.Frame.list self.now) }
    {
        Stack::of(&self.below).with_standing(&self.own)
    }
}

// Whether one level more may come onto a stack, of which so many are the topping's own.
fn judge_added(stack: Stack, own: u32, level: &Level) -> Result<(), FrameDenial>
    ensures { Checked (add_denial stack.levels own stack.top.0 level.now) result }
{
    if own >= MOST_STOREYS as u32 {
        return Err(FrameDenial::TooManyLevels {
            level: stack.levels + 1,
        });
    }
    stack.with(level)?;
    Ok(())
}

impl<F: Frame> Frame for Topping<F> {
    ghost use Rattle.frames.specs.Toppings.{topped};
    ghost use Rattle.frames.specs.Stacks.{stacked_sound};

    ghost list = { topped F.Frame.list };

    ghost sound = { λ t. stacked_sound (F.Frame.list t.below) (own_storeys t.own) (F.Frame.sound t.below) };

    fn count(&self) -> u32 {
        self.stack().levels
    }

    #[tactic(auto, using(crate::proofs::Toppings::level_below))]
    fn level(&self, k: u32) -> Option<Level> {
        let below = self.below.count();
        if k <= below {
            return self.below.level(k);
        }
        if k > self.count() {
            return None;
        }
        level_of(self.own.levels(), k - below)
    }

    fn top(&self) -> LevelHeight {
        self.stack().top
    }
}
