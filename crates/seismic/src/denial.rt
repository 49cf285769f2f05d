//! Why a sheet or the shears on axes are refused.
ghost use Rattle.std.specs.Prelude.{◌≡◌};
ghost use Rattle.seismic.specs.declared.denial.ShearDenial.TheVariants.{BadCard};
ghost use Rattle.seismic.specs.declared.denial.SheetDenial.TheVariants.{NoShears as NoSheet};
ghost use Rattle.seismic.specs.declared.denial.AxesDenial.TheVariants.{NoShears as NoneOnAxes};
ghost use Rattle.seismic.specs.Denials.{axes_number, axes_place, shear_number, shear_place, sheet_number, sheet_place};

use cards::denial::CardDenial;
use records::denial::Denial;

/// Why the storeys of a frame have no shears.
#[derive(Clone, Copy, Debug, PartialEq, Eq)]
pub enum ShearDenial {
    /// The frame has no levels.
    NoLevels,
    /// Something is wrong with the card.
    BadCard(CardDenial),
}

/// Why there is no sheet.
#[derive(Clone, Copy, Debug, PartialEq, Eq)]
pub enum SheetDenial {
    /// The storeys have no shears.
    NoShears(ShearDenial),
    /// Fewer rows were lent than there are levels.
    TooFewRows { needed: u32 },
}

/// Why the axes of a storey take no shear.
#[derive(Clone, Copy, Debug, PartialEq, Eq)]
pub enum AxesDenial {
    /// No storey has a shear.
    NoShears(ShearDenial),
    /// The frame has no storey of this number.
    NoSuchStorey { storey: u32 },
    /// There are no axes, or more than there may be.
    WrongCount,
    /// The stiffness of this axis, counted from 1, lies outside its range; that of none before it does.
    OutOfRange { axis: u32 },
}

impl From<CardDenial> for ShearDenial {
    ghost from_gives = { λ d r. r ≡ BadCard d };

    fn from(denial: CardDenial) -> ShearDenial {
        ShearDenial::BadCard(denial)
    }
}

impl From<ShearDenial> for SheetDenial {
    ghost from_gives = { λ d r. r ≡ NoSheet d };

    fn from(denial: ShearDenial) -> SheetDenial {
        SheetDenial::NoShears(denial)
    }
}

impl From<ShearDenial> for AxesDenial {
    ghost from_gives = { λ d r. r ≡ NoneOnAxes d };

    fn from(denial: ShearDenial) -> AxesDenial {
        AxesDenial::NoShears(denial)
    }
}

impl Denial for ShearDenial {
    ghost numbered = { shear_number };

    ghost placed = { shear_place };

    fn number(&self) -> u32 {
        match self {
            ShearDenial::NoLevels => 31,
            ShearDenial::BadCard(denial) => denial.number(),
        }
    }

    fn place(&self) -> u32 {
        match self {
            ShearDenial::NoLevels => 0,
            ShearDenial::BadCard(denial) => denial.place(),
        }
    }
}

impl Denial for SheetDenial {
    ghost numbered = { sheet_number };

    ghost placed = { sheet_place };

    fn number(&self) -> u32 {
        match self {
            SheetDenial::NoShears(denial) => denial.number(),
            SheetDenial::TooFewRows { .. } => 34,
        }
    }

    fn place(&self) -> u32 {
        match self {
            SheetDenial::NoShears(denial) => denial.place(),
            SheetDenial::TooFewRows { needed } => *needed,
        }
    }
}

impl Denial for AxesDenial {
    ghost numbered = { axes_number };

    ghost placed = { axes_place };

    fn number(&self) -> u32 {
        match self {
            AxesDenial::NoShears(denial) => denial.number(),
            AxesDenial::NoSuchStorey { .. } => 35,
            AxesDenial::WrongCount | AxesDenial::OutOfRange { .. } => 36,
        }
    }

    fn place(&self) -> u32 {
        match self {
            AxesDenial::NoShears(denial) => denial.place(),
            AxesDenial::NoSuchStorey { storey } => *storey,
            AxesDenial::WrongCount => 0,
            AxesDenial::OutOfRange { axis } => *axis,
        }
    }
}
