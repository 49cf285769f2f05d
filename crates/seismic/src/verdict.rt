//! The limits of a storey, and the verdict on a sheet.
ghost use Rattle.std.specs.Prelude.{◌≡◌};
ghost use Rattle.seismic.specs.Limits.{limit_number};

/// What a storey has to keep, in the order in which it is judged.
#[derive(Clone, Copy, Debug, PartialEq, Eq)]
pub enum Limit {
    /// The storey moves no more than its walls bear.
    Drift,
    /// The forces do not pass too far from the torsion centre.
    Eccentricity,
    /// The weight from its level up, moved aside by the drift, asks no more than the storey's shear allows.
    SecondOrder,
    /// The gap to the boundary leaves room for the movement.
    Gap,
}

impl Limit {
    /// The limit's number, from 1.
    pub fn number(self) -> u32
        ensures { result ≡ limit_number self }
    {
        match self {
            Limit::Drift => 1,
            Limit::Eccentricity => 2,
            Limit::SecondOrder => 3,
            Limit::Gap => 4,
        }
    }
}

/// Whether every storey keeps its limits.
#[derive(Clone, Copy, Debug, PartialEq, Eq)]
pub enum Verdict {
    Pass,
    /// The lowest storey that breaks a limit, and the first limit that it breaks.
    Fail { storey: u32, limit: Limit },
}

impl Verdict {
    ghost use Rattle.seismic.specs.Verdicts.{or_then, of_storey};

    // This verdict where it fails, else that of the next storey up.
    pub(crate) fn or_at(self, storey: u32, broken: Option<Limit>) -> Verdict
        ensures { result ≡ or_then self (of_storey storey broken) }
    {
        match (self, broken) {
            (Verdict::Pass, Some(limit)) => Verdict::Fail { storey, limit },
            (verdict, _) => verdict,
        }
    }
}
