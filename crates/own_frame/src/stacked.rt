//! Two frames, one over the other.
ghost use Rattle.std.specs.Prelude.{◌≡◌, ◌++◌, IfNone, IfSome};
ghost use Rattle.frames.specs.Levels.{Sound};

use frames::frame::Frame;
use records::height::LevelHeight;
use records::level::Level;
use records::limits::MOST_LEVELS;

/// The levels of the lower frame, and over them those of the upper one.
#[derive(Debug, Drop)]
pub struct Stacked<A: Frame, B: Frame> {
    lower: A,
    upper: B,
    ghost whole: { Sound (A.list lower ++ B.list upper) },
}

impl<A: Frame, B: Frame> Stacked<A, B> {
    /// The two frames, where together they are neither too many levels nor too high.
    #[tactic(auto, using(crate::proofs::Stacks::sound_both, crate::proofs::Stacks::too_many, crate::proofs::Stacks::too_high))]
    pub fn new(lower: A, upper: B) -> Option<Stacked<A, B>>
    where
        A: Drop,
        B: Drop,
        ensures lower { IfSome result (λ s. s.lower ≡ lower) }
        ensures upper { IfSome result (λ s. s.upper ≡ upper) }
        ensures none { IfNone result (¬ Sound (A.Frame.list lower ++ B.Frame.list upper)) }
    {
        let levels = lower.count() + upper.count();
        let top = lower.top().decimetres() + upper.top().decimetres();
        if levels > MOST_LEVELS || top > LevelHeight::LIMIT {
            return None;
        }
        Some(Stacked { lower, upper })
    }
}

impl<A: Frame, B: Frame> Frame for Stacked<A, B> {
    ghost list = { λ s. A.Frame.list s.lower ++ B.Frame.list s.upper };

    ghost sound = { λ s. s.whole };

    fn count(&self) -> u32 {
        self.lower.count() + self.upper.count()
    }

    #[tactic(auto, using(crate::proofs::Stacks::level_low, crate::proofs::Stacks::level_high))]
    fn level(&self, k: u32) -> Option<Level> {
        let below = self.lower.count();
        if k <= below {
            self.lower.level(k)
        } else {
            self.upper.level(k - below)
        }
    }
}
