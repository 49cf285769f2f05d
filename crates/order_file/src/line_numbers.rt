//! On which line of the file each record stands: before it stand the lines that open its section and
//! the earlier ones, and the records of those.
ghost use Rattle.std.specs.Prelude.{◌≡◌, ◌+◌, ◌^◌, ◌<◌, ◌≤◌, length};
ghost use Rattle.std.specs.Option.{option_map};
ghost use Rattle.order_file.specs.File.{filed};
ghost use Rattle.order_file.specs.Lines.{kits, kit_line, level_line, load_line, card_line, where_listed};

use crate::contents::OrderFile;

impl OrderFile {
    // How many records the kit's section has.
    fn kits(&self) -> u32
        ensures value { result ≡ kits (filed self.now) }
        ensures bound { result ≤ 1 }
    {
        u32::from(self.kit.is_some())
    }

    /// The line of the kit's record, where there is one.
    pub fn kit_line(&self) -> Option<u32>
        ensures { result ≡ option_map (λ _. kit_line) self.now.kit }
    {
        self.kit.map(|_kit| 2)
    }

    /// The line of the k-th level's record, counted from 1; nothing where the file lists none such.
    pub fn level_line(&self, k: u32) -> Option<u32>
        ensures { result ≡ where_listed k (filed self.now).levels (level_line (filed self.now) k) }
    {
        line_of(k, &self.levels, 2 + self.kits())
    }

    /// The line of the k-th load's record, counted from 1; nothing where the file lists none such.
    pub fn load_line(&self, k: u32) -> Option<u32>
        ensures { result ≡ where_listed k (filed self.now).loads (load_line (filed self.now) k) }
    {
        line_of(k, &self.loads, 3 + self.kits() + self.levels.len() as u32)
    }

    /// The line of the card's record.
    pub fn card_line(&self) -> u32
        ensures { result ≡ card_line (filed self.now) }
    {
        5 + self.kits() + self.levels.len() as u32 + self.loads.len() as u32
    }
}

// The line of the k-th of some records, which so many lines stand before.
fn line_of<R>(k: u32, records: &[R], before: u32) -> Option<u32>
    requires { before + length records.now < 2 ^ 32 }
    ensures { result ≡ where_listed k records.now (before + k) }
{
    (1..=records.len())
        .contains(&(k as usize))
        .then(|| before + k)
}
