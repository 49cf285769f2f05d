//! The storeys that a topping keeps of its own.
ghost use Rattle.std.specs.Prelude.{◌≡◌, ◌<◌, ◌≤◌, true, [], ◌∷◌, ◌++◌, take};
ghost use Rattle.records.specs.Ranges.{level_fits};
ghost use Rattle.frames.specs.Levels.{all_fit};

use records::level::Level;
use records::limits::MOST_STOREYS;

// The first `count` of the records, from the lowest up. The project keeps them in an array in place, so
// that adding a storey never wants memory.
#[derive(Clone, Copy, Debug)]
pub(crate) struct Storeys {
    records: [Level; MOST_STOREYS],
    count: u32,
    ghost few: { count ≤ 8 },
    ghost fit: { all_fit (take count records) ≡ true },
}

impl Storeys {
    ghost use Rattle.frames.specs.OwnStoreys.{own_storeys};

    pub(crate) fn none() -> Storeys
        ensures { own_storeys result ≡ [] }
    {
        Storeys {
            records: [Level::default(); MOST_STOREYS],
            count: 0,
        }
    }

    // The storeys in a slice.
    pub(crate) fn levels(&self) -> &[Level]
        ensures { result.now ≡ own_storeys self.now }
    {
        &self.records[..self.count as usize]
    }

    // Keeps the first so many of them, and puts a level onto those.
    pub(crate) fn put(&mut self, kept: u32, level: Level)
        requires within { kept < 8 }
        requires there { kept ≤ self.old.count }
        requires fits { level_fits level ≡ true }
        ensures { own_storeys self.new ≡ take kept (own_storeys self.old) ++ level ∷ [] }
    {
        self.records[kept as usize] = level;
        self.count = kept + 1;
    }
}
