//! The base shear of a weight.
ghost use Rattle.std.specs.Prelude.{◌≡◌, ◌*◌, ◌≤◌};
ghost use Rattle.cards.specs.Shears.{base_shear, factor, IsBaseShear};
ghost use Rattle.cards.specs.Wholes.{counted, quarters, whole_ordinate, whole_reduction};

use crate::sound_card::SoundCard;
use records::card::{Card, Group};

impl SoundCard {
    /// The seismic behaviour factor Q in tenths: in group AA it is 1, whatever the card says.
    pub fn behaviour_factor(&self) -> u32
        ensures value { result ≡ factor self.now.card }
        ensures least { 10 ≤ result }
        ensures most { result ≤ 40 }
    {
        match self.card.group {
            Group::B | Group::A => self.card.q,
            Group::AA => 10,
        }
    }

    /// The base shear V0 in kgf of a weight in tenths of a tonne.
    #[tactic(auto, using(crate::proofs::Shears::lateral_fits, crate::proofs::Shears::reduction_most, crate::proofs::Shears::shear_exact, crate::proofs::Shears::shear_value, crate::proofs::Shears::shear_most))]
    pub fn base_shear(&self, weight: u32) -> u64
        ensures exact { IsBaseShear self.now.card weight result }
        ensures value { result ≡ base_shear self.now.card weight }
        ensures within { result ≤ 100 * weight }
    {
        let lateral = self.ordinate() * quarters_of(self.card.group) * (100 * weight as u64);
        lateral.div_ceil(4 * self.reduction())
    }

    // The ordinate of the spectrum, in units of 1 / (1000 × Ta).
    fn ordinate(&self) -> u64
        ensures { result ≡ whole_ordinate self.now.card }
    {
        let card = &self.card;
        card.a0 as u64 * card.ta as u64 + (card.c - card.a0) as u64 * counted_period(card)
    }

    // Q', corrected and at least 1, in units of 1 / (1000 × Ta).
    fn reduction(&self) -> u64
        ensures { result ≡ whole_reduction self.now.card }
    {
        let card = &self.card;
        let ta = card.ta as u64;
        let softened = 10 * ta + (self.behaviour_factor() as u64 - 10) * counted_period(card);
        (softened * card.correction as u64).max(1_000 * ta)
    }
}

// The period as far as it counts: one that is unknown or beyond Ta counts as Ta.
fn counted_period(card: &Card) -> u64
    ensures { result ≡ counted card.now.ta card.now.period }
{
    match card.period {
        Some(t) => t.min(card.ta) as u64,
        None => card.ta as u64,
    }
}

// By how many quarters the group multiplies the ordinate.
fn quarters_of(group: Group) -> u64
    ensures { result ≡ quarters group }
{
    match group {
        Group::B => 4,
        Group::A => 6,
        Group::AA => 7,
    }
}
