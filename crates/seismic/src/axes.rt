//! A storey's shear on its axes.
ghost use Rattle.std.specs.Prelude.{◌≡◌, ℕ, ◌<◌, ◌≤◌, IfSome, OnOk, length, not, sum_by};
ghost use Rattle.std.specs.List.{position_from};
ghost use Rattle.spreading.specs.Spreads.{spread_over};
ghost use Rattle.seismic.specs.declared.axis.Axis.{Axis};
ghost use Rattle.seismic.specs.Axes.{axes_denial, first_outside, with_part, stiffness_fits, table_denial, Allotted, AxisFits, CountFits, OnAxes, LawOnAxes, TableJudged, ShearAt};
ghost use Rattle.cards.specs.SoundCards.{Checked};
ghost use Rattle.seismic.specs.Sheets.{sheet_storeys};

use crate::admit::admit;
use crate::axis::Axis;
use crate::denial::AxesDenial;
use crate::spread_out::spread_out;
use crate::storey::Storey;
use crate::storeys::shear_storeys;
use cards::sound_card::SoundCard;
use frames::frame::Frame;
use records::card::Card;
use records::limits::MOST_LEVELS;

const MOST_AXES: usize = 16;

/// Gives each axis its part of the shear of a storey, by stiffness, and answers that shear in kgf. Where it is
/// denied the axes stay as they were.
#[tactic(auto, using(crate::proofs::AxesDenials::denied_on))]
pub fn direct_shears<F: Frame>(
    frame: &F,
    card: &Card,
    storey: u32,
    axes: &mut [Axis],
) -> Result<u32, AxesDenial>
    ensures answer { OnAxes card.now (F.Frame.list frame.now) storey axes.old result axes.new }
    ensures law { LawOnAxes card.now (F.Frame.list frame.now) storey axes.old result axes.new }
{
    let card = checked(frame.count(), card, storey, axes)?;
    Ok(give(frame, &card, storey, axes))
}

// The same for a storey that is there, and axes that can take its shear.
#[tactic(auto, using(crate::proofs::OnAxes::as_in_row, crate::proofs::OnAxes::stiffness_stays))]
fn give<F: Frame>(frame: &F, card: &SoundCard, storey: u32, axes: &mut [Axis]) -> u32
    requires from { 0 < storey }
    requires to { storey ≤ length (F.Frame.list frame.now) }
    requires some { 0 < sum_by (λ (a : Axis). a.stiffness) axes.old }
    requires few { sum_by (λ (a : Axis). a.stiffness) axes.old ≤ 160000 }
    requires count { CountFits axes.old }
    requires each { (k : ℕ) → 1 ≤ k → AxisFits axes.old k }
    ensures shear { ShearAt (sheet_storeys card.now.card (F.Frame.list frame.now)) storey result }
    ensures axes { axes.new ≡ spread_over (λ (a : Axis). a.stiffness) with_part result axes.old }
    ensures law { Allotted card.now.card (F.Frame.list frame.now) storey result axes.old axes.new }
{
    let shear = shear_of(frame, card, storey);
    spread_out(shear, axes);
    shear
}

// The checked card, where nothing stands against the shear of this storey on these axes.
fn checked(levels: u32, card: &Card, storey: u32, axes: &[Axis]) -> Result<SoundCard, AxesDenial>
    ensures answer { Checked (axes_denial levels card.now storey axes.now) card.now result }
    ensures from { OnOk result (0 < storey) }
    ensures to { OnOk result (storey ≤ levels) }
    ensures some { OnOk result (0 < sum_by (λ (a : Axis). a.stiffness) axes.now) }
    ensures few { OnOk result (sum_by (λ (a : Axis). a.stiffness) axes.now ≤ 160000) }
    ensures count { OnOk result (CountFits axes.now) }
    ensures each { OnOk result ((k : ℕ) → 1 ≤ k → AxisFits axes.now k) }
{
    let card = admit(levels, card)?;
    if !(1..=levels).contains(&storey) {
        return Err(AxesDenial::NoSuchStorey { storey });
    }
    judge(axes)?;
    Ok(card)
}

// What stands against these axes, if anything: first their count, then each in turn.
#[tactic(auto, using(crate::proofs::OnAxes::some_stiffness, crate::proofs::OnAxes::few_stiffness, crate::proofs::OnAxes::each_fits))]
fn judge(axes: &[Axis]) -> Result<(), AxesDenial>
    ensures answer { TableJudged (table_denial axes.now) result }
    ensures some { OnOk result (0 < sum_by (λ (a : Axis). a.stiffness) axes.now) }
    ensures few { OnOk result (sum_by (λ (a : Axis). a.stiffness) axes.now ≤ 160000) }
    ensures count { OnOk result (CountFits axes.now) }
    ensures each { OnOk result ((k : ℕ) → 1 ≤ k → AxisFits axes.now k) }
{
    if !(1..=MOST_AXES).contains(&axes.len()) {
        return Err(AxesDenial::WrongCount);
    }
    match first_out_of_range(axes) {
        Some(axis) => Err(AxesDenial::OutOfRange { axis }),
        None => Ok(()),
    }
}

// The first axis, counted from 1, whose stiffness lies outside its range.
fn first_out_of_range(axes: &[Axis]) -> Option<u32>
    requires { length axes.now ≤ 16 }
    ensures { result ≡ first_outside axes.now }
{
    good_before(axes).map(|before| before as u32 + 1)
}

// How many axes stand before the first whose stiffness lies outside its range.
fn good_before(axes: &[Axis]) -> Option<usize>
    ensures first { result ≡ position_from (λ (a : Axis). not (stiffness_fits a)) 0 axes.now }
    ensures within { IfSome result (λ before. before < length axes.now) }
{
    axes.iter().position(|axis| !axis.is_in_range())
}

// The shear of a storey that is there.
fn shear_of<F: Frame>(frame: &F, card: &SoundCard, storey: u32) -> u32
    requires from { 0 < storey }
    requires to { storey ≤ length (F.Frame.list frame.now) }
    ensures { ShearAt (sheet_storeys card.now.card (F.Frame.list frame.now)) storey result }
{
    let mut storeys = [Storey::default(); MOST_LEVELS as usize];
    let storeys = &mut storeys[..frame.count() as usize];
    shear_storeys(frame, card, storeys);
    shear_at(storeys, storey)
}

// The shear of a storey of these, counted from 1.
#[tactic(auto, using(crate::proofs::OnAxes::shear_read))]
fn shear_at(storeys: &[Storey], storey: u32) -> u32
    requires from { 0 < storey }
    requires to { storey ≤ length storeys.now }
    ensures { ShearAt storeys.now storey result }
{
    storeys[storey as usize - 1].shear
}
