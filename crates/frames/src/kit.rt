//! A kit: levels that are alike, except that the last has the roof weight.
ghost use Rattle.std.specs.Prelude.{◌≡◌, false, length, is_some, IfOk};
ghost use Rattle.frames.specs.Kits.{kit_in_range, kit_denial, kit_list};

use crate::denial::FrameDenial;
use crate::frame::Frame;
use records::height::{LevelHeight, StoreyHeight};
use records::kit_numbers::KitNumbers;
use records::level::Level;
use records::limits::MOST_LEVELS;
use std::cmp::Ordering;

/// A frame by eight numbers.
#[derive(Clone, Copy, Debug, PartialEq, Eq)]
pub struct Kit {
    numbers: KitNumbers,
    pub ghost ok: { is_some (kit_denial numbers) ≡ false },
    ghost counted: { length (kit_list numbers) ≡ numbers.levels },
}

impl Kit {
    ghost use Rattle.frames.specs.KitFrames.{Made, MadeAlike, CheckedAlike};
    ghost use Rattle.frames.specs.Tables.{Checked};

    /// The frame that the numbers describe.
    pub fn new(numbers: KitNumbers) -> Result<Kit, FrameDenial>
        ensures answer { Made numbers result }
        ensures list { IfOk result (λ kit. ⟦<Kit as Frame>⟧.list kit ≡ kit_list numbers) }
        ensures law { MadeAlike numbers result }
    {
        Self::check(&numbers)?;
        Ok(Kit { numbers })
    }

    // The ranges first, then the height.
    fn check(numbers: &KitNumbers) -> Result<(), FrameDenial>
        ensures answer { Checked (kit_denial numbers.now) result }
        ensures law { CheckedAlike numbers.now result }
    {
        if !is_in_range(numbers) {
            return Err(FrameDenial::KitOutOfRange);
        }
        if numbers.levels * numbers.height.0 > LevelHeight::LIMIT {
            return Err(FrameDenial::KitTooHigh);
        }
        Ok(())
    }
}

// Whether the kit has a frame's count of levels, and its floors and its roof lie within their ranges.
fn is_in_range(numbers: &KitNumbers) -> bool
    ensures { result ≡ kit_in_range numbers.now }
{
    (1..=MOST_LEVELS).contains(&numbers.levels)
        && numbers.floor().is_in_range()
        && numbers.roof().is_in_range()
}

impl Frame for Kit {
    ghost use Rattle.frames.specs.KitFrames.{made_list};
    ghost use Rattle.frames.specs.KitLists.{kit_sound};

    ghost list = { made_list };

    ghost sound = { λ k. kit_sound k.numbers k.ok };

    fn count(&self) -> u32 {
        self.numbers.levels
    }

    #[tactic(auto, using(crate::proofs::Kits::floor_at, crate::proofs::Kits::roof_at, crate::proofs::Kits::none_above))]
    fn level(&self, k: u32) -> Option<Level> {
        if k == 0 {
            return None;
        }
        match k.cmp(&self.numbers.levels) {
            Ordering::Less => Some(self.numbers.floor()),
            Ordering::Equal => Some(self.numbers.roof()),
            Ordering::Greater => None,
        }
    }

    // As high as one storey of all their heights together.
    #[tactic(auto, using(crate::proofs::Kits::raised_to_top))]
    fn top(&self) -> LevelHeight {
        let storeys = StoreyHeight(self.numbers.levels * self.numbers.height.0);
        LevelHeight::ground().above(storeys).unwrap()
    }
}
