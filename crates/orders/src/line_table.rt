//! The lines of an order, the oldest first.
ghost use Rattle.std.specs.Prelude.{FitsSigned, ◌-ℤ◌, ◌≡◌, ◌<◌, ◌≤◌, ◌≤ℤ◌, ◌+ℤ◌, [], ◌∷◌, ◌++◌, true, pos, negsuc, length, take, vec_len, vec_capacity, IfOk};
ghost use Rattle.std.specs.Int.{w32};
ghost use Rattle.orders.specs.Loads.{standing, load_fits, loads_fit};
ghost use Rattle.orders.specs.Sums.{level_kept, levels_kept, put_on, sum_at, sums_of, taken_off};

use records::limits::MOST_LEVELS;
use records::line::Line;
use std::alloc::{AllocError, Global};

/// How many lines may stand.
pub(crate) const MOST_LINES: u32 = 64;

// As many as a frame has levels at most.
const LEVELS: usize = MOST_LEVELS as usize;

// Room for all of them is reserved from the start, so that booking one never wants memory.
#[derive(Debug, Drop)]
pub(crate) struct LineTable {
    lines: Vec<Line>,
    // What stands on each level, from level 1 up: so a load and a sheet look at no line.
    sums: [i32; LEVELS],
    ghost few: { vec_len lines ≤ 64 },
    ghost room: { 64 ≤ vec_capacity lines },
    pub ghost light: { loads_fit lines.items ≡ true },
    ghost placed: { levels_kept lines.items ≡ true },
    ghost summed: { sums ≡ sums_of lines.items },
}

impl LineTable {
    ghost use Rattle.orders.specs.Tables.{booked};

    // A table with no line.
    #[tactic(auto, using(crate::proofs::Sums::no_line))]
    pub(crate) fn new(heap: Global) -> Result<LineTable, AllocError>
        ensures { IfOk result (λ t. booked t ≡ []) }
    {
        let lines = Vec::with_capacity(heap, MOST_LINES as usize)?;
        Ok(LineTable {
            lines,
            sums: [0; LEVELS],
        })
    }

    // How many lines stand.
    pub(crate) fn count(&self) -> u32
        ensures count { result ≡ length (booked self.now) }
        ensures few { result ≤ 64 }
    {
        self.lines.len() as u32
    }

    // Puts a line on as the newest.
    #[tactic(auto, using(crate::proofs::Sums::one_more))]
    pub(crate) fn book(&mut self, line: Line)
        requires room { length (booked self.old) < 64 }
        requires load { load_fits line.load ≡ true }
        requires level { level_kept line.level ≡ true }
        ensures { booked self.new ≡ booked self.old ++ line ∷ [] }
    {
        add(&mut self.sums, &line);
        self.lines.push_reserved(line);
    }

    // Takes the newest line off.
    #[tactic(auto, using(crate::proofs::Sums::one_less))]
    pub(crate) fn take_newest(&mut self) -> Line
        requires { 0 < length (booked self.old) }
        ensures { booked self.old ≡ booked self.new ++ result ∷ [] }
    {
        let line = self.lines.pop().unwrap();
        subtract(&mut self.sums, &line);
        line
    }

    // Takes off all lines but the oldest n, one by one, the newest first.
    pub(crate) fn cut(&mut self, n: u32)
        ensures { booked self.new ≡ take n (booked self.old) }
    {
        while self.count() > n {
            self.take_newest();
        }
    }

    // The sum of the loads that stand on a level.
    #[tactic(auto, using(crate::proofs::Sums::told_of_level))]
    pub(crate) fn standing(&self, level: u32) -> i32
        ensures sum { result ≡ standing level (booked self.now) }
        ensures low { negsuc 319999 ≤ℤ result }
        ensures high { result ≤ℤ pos 320000 }
    {
        if level_kept(level) {
            sum_at(&self.sums, level)
        } else {
            0
        }
    }
}

// Whether a frame may have a level of this number.
#[tactic(auto, unfolding(crate::specs::Sums::level_kept))]
fn level_kept(level: u32) -> bool
    ensures { result ≡ level_kept level }
{
    (1..=MOST_LEVELS).contains(&level)
}

// The sum of a level.
#[tactic(auto, unfolding(crate::specs::Sums::level_kept, crate::specs::Sums::sum_at))]
fn sum_at(sums: &[i32; LEVELS], level: u32) -> i32
    requires { level_kept level ≡ true }
    ensures { result ≡ sum_at level sums.now }
{
    sums[level as usize - 1]
}

// Adds the load of a line to the sum of its level.
#[tactic(auto, unfolding(crate::specs::Sums::level_kept, crate::specs::Sums::sum_at, crate::specs::Sums::put_on))]
fn add(sums: &mut [i32; LEVELS], line: &Line)
    requires level { level_kept line.now.level ≡ true }
    requires room { FitsSigned w32 (sum_at line.now.level sums.old +ℤ line.now.load) }
    ensures { sums.new ≡ put_on line.now sums.old }
{
    sums[line.level as usize - 1] += line.load;
}

// Takes it off again.
#[tactic(auto, unfolding(crate::specs::Sums::level_kept, crate::specs::Sums::sum_at, crate::specs::Sums::taken_off))]
fn subtract(sums: &mut [i32; LEVELS], line: &Line)
    requires level { level_kept line.now.level ≡ true }
    requires room { FitsSigned w32 (sum_at line.now.level sums.old -ℤ line.now.load) }
    ensures { sums.new ≡ taken_off line.now sums.old }
{
    sums[line.level as usize - 1] -= line.load;
}
