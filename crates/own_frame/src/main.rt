//! Orders on a frame that no other crate knows: a day of calls on it, and a day on an issued order over it. The answers
//! are printed as every program prints them.
#![tactic(auto)]

ghost use Rattle.std.specs.Prelude.{◌≡◌, length};

mod stacked;
mod tower;

use answer_text::AnswerText;
use frames::frame::Frame;
use frames::kit::Kit;
use frames::topping::Topping;
use frames::typed::Typed;
use orders::order::Order;
use orders::state::Issued;
use records::card::{Card, Group, Soil, Walls};
use records::height::StoreyHeight;
use records::kit_numbers::KitNumbers;
use records::level::Level;
use records::limits::MOST_LEVELS;
use records::line::Line;
use runs::call::Call;
use runs::run;
use seismic::axis::Axis;
use seismic::row::Row;
use stacked::Stacked;
use std::alloc::{AllocError, AllocFailed, Global};
use tower::{Chain, Tower};

const KIT: KitNumbers = KitNumbers {
    levels: 2,
    floor_weight: 100,
    roof_weight: 50,
    height: StoreyHeight(30),
    stiffness: 2_000,
    mass_centre: 50,
    torsion_centre: 52,
    width: 100,
};

const ROOM: Level = Level {
    weight: 20,
    height: StoreyHeight(25),
    stiffness: 1_000,
    mass_centre: 40,
    torsion_centre: 50,
    width: 100,
};

const CARD: Card = Card {
    soil: Soil::II,
    group: Group::B,
    c: 360,
    a0: 100,
    ta: 20,
    tb: 60,
    period: None,
    q: 20,
    correction: 100,
    walls: Walls::Tied,
    load_factor: 110,
    gap: 60,
};

const UNDER: [Line; 2] = [
    Line { level: 3, load: 5 },
    Line {
        level: 1,
        load: -20,
    },
];

// Two levels of a kit with a room of its own over them.
fn building(heap: Global) -> Option<Stacked<Kit, Typed>> {
    let kit = Kit::new(KIT).ok()?;
    let mut room = Typed::new(heap);
    room.lay(&[ROOM]).ok()?;
    Stacked::new(kit, room)
}

fn load(level: u32, load: i32) -> Call {
    Call::Load(Line { level, load })
}

fn sheet(heap: Global) -> Result<Call, AllocError> {
    Ok(Call::Sheet {
        card: CARD,
        rows: vec![in heap; Row::default(); MOST_LEVELS as usize]?,
    })
}

fn axes(storey: u32, stiffnesses: &[u32], heap: Global) -> Result<Call, AllocError> {
    let axes = stiffnesses
        .iter()
        .map(|k| Axis {
            stiffness: *k,
            direct_shear: 0,
        })
        .collect(heap)?;
    Ok(Call::Axes {
        card: CARD,
        storey,
        axes,
    })
}

// A day on the frame itself.
fn first_day(heap: Global) -> Result<Vec<Call>, AllocError> {
    Ok(vec![in heap;
        load(3, 5),
        sheet(heap)?,
        Call::Trial,
        load(1, -20),
        Call::Strike,
        Call::Strike,
        load(4, 1),
        load(2, 10),
        Call::Abandon,
        Call::Standing { level: 2 },
        Call::Issue,
        load(1, 1),
        Call::Release,
        Call::Reopen,
        Call::Standing { level: 3 },
        axes(2, &[1, 2, 4], heap)?,
    ]?)
}

// A day on an issued order over such a frame, which weighs 80, 50 and 25 on its levels.
fn second_day(heap: Global) -> Result<Vec<Call>, AllocError> {
    Ok(vec![in heap;
        Call::Standing { level: 3 },
        load(3, 4_975),
        load(3, 1),
        Call::Strike,
        load(1, -79),
        load(1, -1),
        sheet(heap)?,
        Call::Issue,
        Call::Release,
    ]?)
}

// An issued order with the loads that the second day finds under it.
fn issued<F: Frame + Drop>(frame: F, heap: Global) -> Result<Order<F, Issued>, AllocFailed<F>> {
    let mut order = Order::open(frame, heap)?;
    for line in UNDER {
        // A denied load would show in what is printed.
        let _ = order.load(line);
    }
    Ok(order.issue())
}

// How many levels a tower on this frame has.
fn towered<F: Frame + Drop>(below: F) -> u32
    ensures { result ≡ length (F.Frame.list below) }
{
    Tower::new(below).count()
}

// The same of a chain of one topping on it.
fn chained<F: Frame + Drop>(below: F) -> u32
    ensures { result ≡ length (F.Frame.list below) }
{
    Chain::of(Topping::new(below)).count()
}

fn main(rt: HostRuntime) -> anyhow::Result<()> {
    let heap = rt.alloc();
    let (Some(frame), Some(lower)) = (building(heap), building(heap)) else {
        rt.println("no frame")?;
        return Ok(());
    };
    for answer in run(frame, first_day(heap)?, heap)? {
        rt.print(AnswerText(&answer))?;
    }
    for answer in run(issued(lower, heap)?, second_day(heap)?, heap)? {
        rt.print(AnswerText(&answer))?;
    }
    let Ok(kit) = Kit::new(KIT) else {
        rt.println("no kit")?;
        return Ok(());
    };
    println!(rt; "HELD {} {}", towered(kit), chained(kit))?;
    Ok(())
}
