//! A storey with its share of the base shear.
ghost use Rattle.std.specs.Prelude.{◌≡◌, ◌≤◌, refl, true};
ghost use Rattle.records.specs.Ranges.{level_fits};
ghost use Rattle.seismic.specs.Storeys.{taken, storey_of, product};

use records::height::LevelHeight;
use records::level::Level;
use spreading::share::Share;

// A level, its height H, its share of the base shear V0, and what falls to it: the shear V of its storey,
// in kgf, and the force F at it.
#[derive(Clone, Copy, Debug, Default)]
pub(crate) struct Storey {
    pub(crate) level: Level,
    pub(crate) height: LevelHeight,
    pub(crate) share: u64,
    pub(crate) shear: u32,
    pub(crate) force: u32,
}

// Of 20 parts of V0, so many are shared by weight × H. One falls to the top alone.
const BY_HEIGHT: u64 = 19;

impl Storey {
    // The storey of a level at this height, before anything falls to it, and before the top has its part.
    pub(crate) fn new(level: Level, height: LevelHeight) -> Storey
        requires fits { level_fits level ≡ true }
        requires low { height.0 ≤ 500 }
        ensures { result ≡ storey_of level height.0 }
    {
        let mut storey = Storey {
            level,
            height,
            share: 0,
            shear: 0,
            force: 0,
        };
        storey.share = BY_HEIGHT * storey.product();
        storey
    }

    // The level's weight × H.
    pub(crate) fn product(&self) -> u64
        ensures { result ≡ product self.now }
    {
        self.level.weight as u64 * self.height.decimetres() as u64
    }
}

impl Share for Storey {
    ghost share_of = { λ s. s.share };

    ghost part_of = { λ s. s.force };

    ghost taken = { taken };

    ghost keeps_part = { λ s tail part. refl };

    ghost keeps_share = { λ s tail part. refl };

    fn share(&self) -> u64 {
        self.share
    }

    fn take(&mut self, tail: u32, part: u32) {
        self.shear = tail;
        self.force = part;
    }
}
