//! One rule for every kind of record that has a share: an amount is spread over records by their
//! shares. The parts add up to the amount, and from every record on they come to the exact share of
//! these records, rounded up.
#![tactic(auto)]

pub mod refusal;
pub mod share;
pub mod spread;
