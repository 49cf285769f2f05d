//! The ranges of a card's fields.
ghost use Rattle.std.specs.Prelude.{◌≡◌, ◌↔◌, ℕ, Bool, not, option_map, IsTrue};
ghost use Rattle.cards.specs.Cards.{fields, is_factor, period_fits};
ghost use Rattle.records.specs.Ranges.{from_to};
ghost use Rattle.cards.specs.Denials.{first_outside, is_above};
ghost use Rattle.cards.specs.Fits.{FirstUnfit, IsAbove};
ghost use Rattle.std.specs.List.{find};

use records::card::Card;

const MOST_C: u32 = 570;

const LATEST: u32 = 1_000;

const FACTORS: [u32; 5] = [10, 15, 20, 30, 40];

const MOST_GAP: u32 = 10_000;

// The first field outside its range.
#[tactic(auto, using(crate::proofs::Fields::first_found, crate::proofs::Fits::field_law))]
pub(crate) fn first_out_of_range(card: &Card) -> Option<u32>
    ensures answer { result ≡ first_outside (fields card.now) }
    ensures law { FirstUnfit card.now result }
{
    first_outside(&fields(card))
}

// Each field with whether it lies within its range. The soil, the group and the walls are marks, which cannot be wrong.
fn fields(card: &Card) -> [(u32, bool); 9]
    ensures { result ≡ fields card.now }
{
    [
        (3, is_from_to(1, MOST_C, card.c)),
        (4, is_from_to(1, card.c, card.a0)),
        (5, is_from_to(1, LATEST, card.ta)),
        (6, is_from_to(card.ta, LATEST, card.tb)),
        (7, is_period(card.period)),
        (8, is_behaviour_factor(card.q)),
        (9, is_from_to(50, 100, card.correction)),
        (11, is_from_to(100, 200, card.load_factor)),
        (12, is_from_to(0, MOST_GAP, card.gap)),
    ]
}

// The first of the fields that does not fit.
fn first_outside(fields: &[(u32, bool)]) -> Option<u32>
    ensures { result ≡ option_map (λ (f : ℕ × Bool). f.0) (find (λ (f : ℕ × Bool). not f.1) fields.now) }
{
    fields
        .iter()
        .find(|(_, fits)| !fits)
        .map(|(field, _)| *field)
}

// Whether a number is at least the first and at most the second.
fn is_from_to(least: u32, most: u32, n: u32) -> bool
    ensures { result ≡ from_to least most n }
{
    (least..=most).contains(&n)
}

// Whether a period is unknown, or within its range.
fn is_period(period: Option<u32>) -> bool
    ensures { result ≡ period_fits period }
{
    match period {
        Some(t) => is_from_to(1, LATEST, t),
        None => true,
    }
}

// Whether this is one of the behaviour factors, in tenths.
fn is_behaviour_factor(q: u32) -> bool
    ensures { result ≡ is_factor q }
{
    FACTORS.contains(&q)
}

// Whether the period is known and above Tb.
pub(crate) fn is_period_above(card: &Card) -> bool
    ensures answer { result ≡ is_above card.now.tb card.now.period }
    ensures law { IsTrue result ↔ IsAbove card.now.tb card.now.period }
{
    match card.period {
        Some(t) => t > card.tb,
        None => false,
    }
}
