//! Records that have a share of what is spread over them.
ghost use Rattle.std.specs.Prelude.{◌≡◌, ℕ};

/// A record with a share. It takes its part of an amount, and may keep its tail: what falls to it and to
/// the records after it together.
pub trait Share {
    // the share of a record
    ghost share_of: { Self → ℕ };

    // the part that was written into it
    ghost part_of: { Self → ℕ };

    // the record with a tail and a part written in
    ghost taken: { Self → ℕ → ℕ → Self };

    fn share(&self) -> u64
        ensures { result ≡ share_of self.now };

    fn take(&mut self, tail: u32, part: u32)
        ensures { self.new ≡ taken self.old tail part };

    ghost keeps_part: { (r : Self) (tail part : ℕ) → part_of (taken r tail part) ≡ part };

    // its share stays
    ghost keeps_share: { (r : Self) (tail part : ℕ) → share_of (taken r tail part) ≡ share_of r };
}
