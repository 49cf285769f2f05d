//! How a storey answers to its shear, with those below and above it: its row, and its limits.
ghost use Rattle.std.specs.Prelude.{◌≡◌};
ghost use Rattle.seismic.specs.Bounds.{IsResponseBounded};
ghost use Rattle.seismic.specs.Limits.{allowance, breaks, first_broken};
ghost use Rattle.seismic.specs.Rows.{width_times_shear, row_of, separation, sway};
ghost use Rattle.seismic.specs.declared.verdict.Limit.TheVariants.{Drift, Eccentricity, SecondOrder, Gap};

use crate::row::Row;
use crate::storey::Storey;
use crate::verdict::Limit;
use cards::sound_card::SoundCard;
use records::card::{Soil, Walls};

// Storey `number` of a sheet.
#[derive(Clone, Copy, Debug)]
pub(crate) struct Response {
    pub(crate) number: u32,
    pub(crate) storey: Storey,
    // Its own movement u, in hundredths of a mm.
    pub(crate) drift: u64,
    // The movement x of its level over the ground, in hundredths of a mm.
    pub(crate) displacement: u64,
    // |N|, in kgf·dm.
    pub(crate) twist: u64,
    // The weight from its level up, in tenths of a tonne.
    pub(crate) weight: u32,
}

// The least separation, in hundredths of a mm.
const LEAST_SEPARATION: u64 = 5_000;

// Eccentricity is judged from this Q up, in tenths.
const DUCTILE: u32 = 30;

impl Response {
    // Its row of the sheet.
    pub(crate) fn row(&self, card: &SoundCard) -> Row
        requires { IsResponseBounded self.now }
        ensures { result ≡ row_of card.now.card self.now }
    {
        let storey = &self.storey;
        let width_times_shear = self.width_times_shear();
        Row {
            level: self.number,
            weight: storey.level.weight,
            height: storey.height,
            force: storey.force,
            shear: storey.shear,
            drift: self.drift,
            displacement: self.displacement,
            ma: 15 * self.twist + width_times_shear,
            mb: (10 * self.twist) as i64 - width_times_shear as i64,
            separation: self.separation(card),
        }
    }

    // The first limit that the storey breaks, if any.
    pub(crate) fn first_broken(&self, card: &SoundCard) -> Option<Limit>
        requires { IsResponseBounded self.now }
        ensures { result ≡ first_broken card.now.card self.now }
    {
        if self.breaks_drift(card) {
            Some(Limit::Drift)
        } else if self.breaks_eccentricity(card) {
            Some(Limit::Eccentricity)
        } else if self.breaks_second_order(card) {
            Some(Limit::SecondOrder)
        } else if self.breaks_gap(card) {
            Some(Limit::Gap)
        } else {
            None
        }
    }

    fn breaks_drift(&self, card: &SoundCard) -> bool
        requires { IsResponseBounded self.now }
        ensures { result ≡ breaks card.now.card self.now Drift }
    {
        self.drift > allowance_of(card.card.walls) * self.storey.level.height.0 as u64
    }

    fn breaks_eccentricity(&self, card: &SoundCard) -> bool
        requires { IsResponseBounded self.now }
        ensures { result ≡ breaks card.now.card self.now Eccentricity }
    {
        card.behaviour_factor() >= DUCTILE && 5 * self.twist > self.width_times_shear()
    }

    #[tactic(auto, using(crate::proofs::Cards::resistance_fits))]
    fn breaks_second_order(&self, card: &SoundCard) -> bool
        requires { IsResponseBounded self.now }
        ensures { result ≡ breaks card.now.card self.now SecondOrder }
    {
        let resisted = self.storey.shear as u64 * self.storey.level.height.0 as u64;
        100 * (self.drift * self.weight as u64) > 8 * (card.card.load_factor as u64 * resisted)
    }

    fn breaks_gap(&self, card: &SoundCard) -> bool
        requires { IsResponseBounded self.now }
        ensures { result ≡ breaks card.now.card self.now Gap }
    {
        self.separation(card) > 100 * card.card.gap as u64
    }

    // b × V, in kgf·dm.
    fn width_times_shear(&self) -> u64
        ensures { result ≡ width_times_shear self.now }
    {
        self.storey.level.width as u64 * self.storey.shear as u64
    }

    // s, in hundredths of a mm.
    fn separation(&self, card: &SoundCard) -> u64
        requires { IsResponseBounded self.now }
        ensures { result ≡ separation card.now.card self.now }
    {
        let height = self.storey.height.decimetres() as u64;
        LEAST_SEPARATION.max(self.displacement + sway_of(card.card.soil) * height)
    }
}

// By how much a level moves aside on this soil: hundredths of a mm to a dm of its height.
fn sway_of(soil: Soil) -> u64
    ensures { result ≡ sway soil }
{
    match soil {
        Soil::I => 10,
        Soil::II => 30,
        Soil::III => 60,
    }
}

// How far a storey may move, in hundredths of a mm to a dm of its height.
fn allowance_of(walls: Walls) -> u64
    ensures { result ≡ allowance walls }
{
    match walls {
        Walls::Tied => 60,
        Walls::Detached => 120,
    }
}
