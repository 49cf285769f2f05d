//! A walk up the storeys, with sums over those passed and those to come.
ghost use Rattle.std.specs.Prelude.{◌≡◌, ◌^◌, ◌<◌, ◌≤◌, sum_by};
ghost use Rattle.seismic.specs.Bounds.{IsBounded, IsResponseBounded};
ghost use Rattle.seismic.specs.Responses.{drift, moment, weight};

use crate::response::Response;
use crate::storey::Storey;
use cards::sound_card::SoundCard;

// How many storeys are passed, x so far, and the moment and the weight still to come.
#[derive(Clone, Copy, Debug)]
pub(crate) struct Walk {
    passed: u32,
    // x of the level reached, in hundredths of a mm.
    displacement: u64,
    // The sum of F × mass centre over the storeys to come, in kgf·dm.
    moment: u64,
    // Their weight, in tenths of a tonne.
    weight: u32,
}

impl Walk {
    ghost use Rattle.seismic.specs.Walks.{met, past, CanMeet};

    // Before the lowest storey.
    pub(crate) fn from_ground(storeys: &[Storey]) -> Walk
        requires moments { sum_by moment storeys.now < 2 ^ 64 }
        requires weights { sum_by weight storeys.now < 2 ^ 32 }
        ensures passed { result.passed ≡ 0 }
        ensures displacement { result.displacement ≡ 0 }
        ensures moment { result.moment ≡ sum_by moment storeys.now }
        ensures weight { result.weight ≡ sum_by weight storeys.now }
    {
        Walk {
            passed: 0,
            displacement: 0,
            moment: storeys.iter().map(moment_of).sum(),
            weight: storeys.iter().map(|storey| storey.level.weight).sum(),
        }
    }

    // Past the next storey, with how that answers.
    pub(crate) fn pass(&mut self, card: &SoundCard, storey: &Storey) -> Response
        requires { CanMeet self.old storey.now }
        ensures response { result ≡ met card.now.card self.old storey.now }
        ensures bounded { IsResponseBounded result }
        ensures walk { self.new ≡ past card.now.card self.old storey.now }
    {
        let drift = drift_of(card, storey);
        let torque = storey.shear as u64 * storey.level.torsion_centre as u64;
        self.passed += 1;
        self.displacement += drift;
        let response = Response {
            number: self.passed,
            storey: *storey,
            drift,
            displacement: self.displacement,
            twist: self.moment.abs_diff(torque),
            weight: self.weight,
        };
        self.moment -= moment_of(storey);
        self.weight -= storey.level.weight;
        response
    }
}

// u: the movement of one storey, in hundredths of a mm.
fn drift_of(card: &SoundCard, storey: &Storey) -> u64
    requires { IsBounded storey.now }
    ensures value { result ≡ drift card.now.card storey.now }
    ensures most { result ≤ 4800000000 }
{
    let pushed = 10 * (card.behaviour_factor() as u64 * storey.shear as u64);
    pushed.div_ceil(storey.level.stiffness as u64)
}

// F × mass centre, in kgf·dm.
fn moment_of(storey: &Storey) -> u64
    ensures { result ≡ moment storey.now }
{
    storey.force as u64 * storey.level.mass_centre as u64
}
