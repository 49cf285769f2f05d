//! The storeys of a frame, with what falls to each.
ghost use Rattle.std.specs.Prelude.{◌≡◌, ◌+◌, ◌^◌, ◌<◌, ◌≤◌, length, sum_by};
ghost use Rattle.seismic.specs.declared.storey.Storey.{Storey};
ghost use Rattle.frames.specs.Levels.{weight_of};
ghost use Rattle.seismic.specs.Bounds.{AreBounded};
ghost use Rattle.seismic.specs.Storeys.{bare, base_of, crowned, products, sheared, storeys};

use crate::spread_out::spread_out;
use crate::storey::Storey;
use cards::sound_card::SoundCard;
use frames::frame::Frame;
use records::height::LevelHeight;

// What a whole frame weighs, in tenths of a tonne, and its base shear V0, in kgf.
#[derive(Clone, Copy, Debug)]
pub(crate) struct Base {
    pub(crate) weight: u32,
    pub(crate) shear: u32,
}

// Sums over all levels.
#[derive(Clone, Copy, Debug)]
struct Sums {
    weight: u32,
    // P, the sum of weight × H.
    products: u64,
}

// Writes the storeys of a frame with their shears, one a level.
#[tactic(auto, using(crate::proofs::Shares::spread_fits))]
pub(crate) fn shear_storeys<F: Frame>(frame: &F, card: &SoundCard, out: &mut [Storey]) -> Base
    requires some { 0 < length (F.Frame.list frame.now) }
    requires count { length out.old ≡ length (F.Frame.list frame.now) }
    ensures storeys { out.new ≡ sheared (base_of card.now.card (F.Frame.list frame.now)) (F.Frame.list frame.now) }
    ensures bounded { AreBounded out.new }
    ensures weight { result.weight ≡ weight_of (F.Frame.list frame.now) }
    ensures shear { result.shear ≡ base_of card.now.card (F.Frame.list frame.now) }
{
    let weight = share_out(frame, out);
    let shear = card.base_shear(weight) as u32;
    spread_out(shear, out);
    Base { weight, shear }
}

// Writes the storeys of a frame with their shares, and answers its weight in tenths of a tonne.
#[tactic(auto, using(crate::proofs::Shares::shares_fit, crate::proofs::Shares::some_shares, crate::proofs::Shares::few_shares))]
fn share_out<F: Frame>(frame: &F, out: &mut [Storey]) -> u32
    requires some { 0 < length (F.Frame.list frame.now) }
    requires count { length out.old ≡ length (F.Frame.list frame.now) }
    ensures storeys { out.new ≡ storeys (F.Frame.list frame.now) }
    ensures some { 0 < sum_by (λ (s : Storey). s.share) out.new }
    ensures few { sum_by (λ (s : Storey). s.share) out.new ≤ 1200000000 }
    ensures weight { result ≡ weight_of (F.Frame.list frame.now) }
    ensures light { result ≤ 120000 }
{
    let sums = stand(frame, out);
    crown(out, sums.products);
    sums.weight
}

// Writes the storeys of a frame, one a level, before the top has its part.
fn stand<F: Frame>(frame: &F, out: &mut [Storey]) -> Sums
    requires { length out.old ≡ length (F.Frame.list frame.now) }
    ensures storeys { out.new ≡ bare (F.Frame.list frame.now) }
    ensures weight { result.weight ≡ weight_of (F.Frame.list frame.now) }
    ensures light { result.weight ≤ 120000 }
    ensures products { result.products ≡ products (F.Frame.list frame.now) }
{
    let mut sums = Sums {
        weight: 0,
        products: 0,
    };
    let mut height = LevelHeight::ground();
    for (below, level) in frame.levels().enumerate() {
        height = height.above(level.height).unwrap();
        let storey = Storey::new(level, height);
        sums.weight += level.weight;
        sums.products += storey.product();
        out[below] = storey;
    }
    sums
}

// Adds to the share of the top what falls to it alone.
#[tactic(auto, using(crate::proofs::Shares::top_within, crate::proofs::Shares::top_crowned))]
fn crown(out: &mut [Storey], more: u64)
    requires some { 0 < length out.old }
    requires fits { sum_by (λ (s : Storey). s.share) out.old + more < 2 ^ 64 }
    ensures { out.new ≡ crowned more out.old }
{
    let top = out.len() - 1;
    out[top].share += more;
}
