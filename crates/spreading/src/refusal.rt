//! Why an amount is not spread.

/// What stands against spreading.
#[derive(Clone, Copy, Debug, PartialEq, Eq)]
pub enum Unspread {
    /// The shares come to nothing, or there is no record.
    NoShares,
    /// The shares, or the amount times the shares, come to more than 64 bits hold.
    TooLarge,
}
