//! What every refusal tells.
ghost use Rattle.std.specs.Prelude.{◌≡◌, ℕ};

/// A refusal has a number and a place, by which it is printed: a number that tells where, or how much was needed; 0 where
/// there is none to tell.
pub trait Denial {
    ghost numbered: { Self → ℕ };

    ghost placed: { Self → ℕ };

    fn number(&self) -> u32
        ensures { result ≡ numbered self.now };

    fn place(&self) -> u32
        ensures { result ≡ placed self.now };
}
