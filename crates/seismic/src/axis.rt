//! An axis of a storey.
ghost use Rattle.std.specs.Prelude.{◌≡◌, refl};
ghost use Rattle.seismic.specs.Axes.{with_part, stiffness_fits};

use spreading::share::Share;

/// One of the axes that take a storey's shear.
#[derive(Clone, Copy, Debug, Default, PartialEq, Eq)]
pub struct Axis {
    /// In hundreds of kgf per mm.
    pub stiffness: u32,
    /// What falls to it of the storey's shear, in kgf.
    pub direct_shear: u32,
}

impl Axis {
    const MOST_STIFFNESS: u32 = 10_000;

    // Whether its stiffness lies within its range.
    pub(crate) fn is_in_range(&self) -> bool
        ensures { result ≡ stiffness_fits self.now }
    {
        (1..=Self::MOST_STIFFNESS).contains(&self.stiffness)
    }
}

impl Share for Axis {
    ghost share_of = { λ a. a.stiffness };

    ghost part_of = { λ a. a.direct_shear };

    ghost taken = { with_part };

    ghost keeps_part = { λ a tail part. refl };

    ghost keeps_share = { λ a tail part. refl };

    fn share(&self) -> u64 {
        self.stiffness as u64
    }

    fn take(&mut self, _tail: u32, part: u32) {
        self.direct_shear = part;
    }
}
