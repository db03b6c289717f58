// What stiffening does to a corridor: a full bank, else a raise, else a circuit.
ghost use Rattle.std.specs.Prelude.{◌≡◌, ℕ, ◌+◌, ◌<◌, ◌≤◌, true, [], ◌∷◌, length, All, slice_index};
ghost use Rattle.impedance.specs.Impedance.{rating_ok};
ghost use Rattle.plan_defs.specs.Constants.{most_cap};
ghost use Rattle.plan_defs.specs.Design.{drawn};
ghost use Rattle.planning.specs.Design.{lines_for};
ghost use Rattle.plan_defs.specs.Raise.{mark_if};
ghost use Rattle.plan_defs.specs.Stiffen.{arrival};
ghost use Rattle.planning.specs.RaiseMarks.{largest_count, pairs_for};
ghost use Rattle.planning.specs.Stiffen.{Room, raisable, room_for, tallied_more, CorridorStiffened, StiffenFits, BatchStiffened};

use crate::budgets::StiffeningTally;
use crate::design::{circuit, set_transformer_mva};
use crate::policy::full_at;
use crate::raise_marks::{mark_raise_to, raise_of};
use crate::size::{bank_below, keep_bank};
use crate::solved::Solved;
use plan_defs::CircuitDesign;

// 1 where a bus comes to the top or above.
fn arrival(top: u32, level: &[u32], marks: &[u32], i: usize) -> u32
    requires { (i < length level.now) × (i < length marks.now) }
    ensures { (result ≡ arrival top level.now marks.now i) × (result ≤ 1) }
{
    let Some(to) = raise_of(marks[i]) else {
        return 0;
    };
    u32::from((top < level[i]) & (to <= top))
}

// How many ends of corridor k do.
fn arrivals(solved: &Solved, k: usize, marks: &[u32]) -> u32
    requires { (k < length solved.now.grid.a) × (length marks.now ≡ length solved.now.level) }
    ensures { (result ≡ arrival solved.now.g.top solved.now.level marks.now (slice_index solved.now.grid.a k) + arrival solved.now.g.top solved.now.level marks.now (slice_index solved.now.grid.b k)) × (result ≤ 2) }
{
    let top = solved.g.top;
    let i = solved.grid.a[k] as usize;
    let j = solved.grid.b[k] as usize;
    arrival(top, solved.level, marks, i) + arrival(top, solved.level, marks, j)
}

// Marks both ends of corridor k for a raise that is within the budget, and answers whether it is.
fn mark_in_budget(solved: &Solved, hv: u32, k: usize, marks: &mut [u32]) -> bool
    requires { (k < length solved.now.grid.a) × (length marks.old ≡ length solved.now.level) }
    ensures marks { marks.new ≡ mark_if (raisable solved.now.g hv solved.now.level solved.now.grid.a solved.now.grid.b k) (pairs_for solved.now.grid.a solved.now.grid.b) solved.now.level k marks.old }
    ensures answer { result ≡ raisable solved.now.g hv solved.now.level solved.now.grid.a solved.now.grid.b k }
{
    if (hv as usize) < solved.g.hv {
        return mark_raise_to(solved.level, solved.grid, k, solved.g.top, marks);
    }
    false
}

impl Solved<'_> {
    // Corridor k's circuit at the round's levels, with so large a bank.
    pub fn circuit(&self, k: usize, bank: f64) -> CircuitDesign
        requires { (k < length self.now.grid.a) × (rating_ok bank ≡ true) }
        ensures design { result ≡ drawn (lines_for self.now.grid) self.now.level k bank }
        ensures rated { rating_ok result.line_rate ≡ true }
        ensures ends { (result.from < length self.now.level) × (result.to < length self.now.level) }
    {
        circuit(self.grid, self.level, k, bank)
    }

    // Whether corridor k, of so many circuits, may get one more, where there are so many in all. Its own cap is one that a case may have.
    pub fn has_room(&self, k: usize, count: u32, total: u32) -> bool
        requires { k < length self.now.grid.a }
        ensures room { result ≡ room_for self.now.g (slice_index self.now.grid.cap k) count total }
        ensures few { slice_index self.now.grid.cap k ≤ most_cap }
    {
        let cap = self.grid.cap;
        (count < full_at(cap[k])) & ((total as usize) < self.g.branches)
    }
}

fn tallied_more(added: u32, arrived: u32, t: StiffeningTally) -> StiffeningTally
    requires { (t.total + added ≤ largest_count) × (t.hv + arrived ≤ largest_count) × (t.stiffening + added ≤ largest_count) }
    ensures { result ≡ tallied_more added arrived t }
{
    StiffeningTally {
        total: t.total + added,
        hv: t.hv + arrived,
        stiffening: t.stiffening + added,
        stiffened: true,
        ..t
    }
}

// A raise of corridor k, else a circuit, else nothing.
fn raise_or_add(
    solved: &Solved,
    k: usize,
    circuits: &mut [u32],
    marks: &mut [u32],
    t: StiffeningTally,
) -> StiffeningTally
    requires { (k < length solved.now.grid.a) × (length circuits.old ≡ length solved.now.grid.a) × (length marks.old ≡ length solved.now.level) × Room 1 t }
    ensures { CorridorStiffened solved.now.g (slice_index solved.now.grid.cap k) solved.now.level solved.now.grid.a solved.now.grid.b k
        circuits.old marks.old t circuits.new marks.new result }
{
    if mark_in_budget(solved, t.hv, k, marks) {
        let arrived = arrivals(solved, k, marks);
        return tallied_more(0, arrived, t);
    }
    let count = circuits[k];
    if solved.has_room(k, count, t.total) {
        circuits[k] = count + 1;
        return tallied_more(1, 0, t);
    }
    t
}

// A full bank, else a raise, else a circuit, else nothing.
fn stiffen_one(
    solved: &Solved,
    k: usize,
    circuits: &mut [u32],
    banks: &mut [f64],
    floors: &mut [f64],
    upsized: &mut [u32],
    marks: &mut [u32],
    t: StiffeningTally,
) -> StiffeningTally
    requires stiffen_fits { StiffenFits solved.now.grid solved.now.level circuits.old banks.old floors.old upsized.old marks.old }
    requires k_in_bounds { (k < length solved.now.grid.a) × Room 1 t }
    ensures { BatchStiffened (k ∷ []) solved.now.g solved.now.grid solved.now.level
        circuits.old banks.old floors.old upsized.old marks.old t
        circuits.new banks.new floors.new upsized.new marks.new result }
{
    let d = solved.circuit(k, banks[k]);
    if bank_below(d) {
        let full = set_transformer_mva(d, d.line_rate);
        keep_bank(k, full, banks, floors, upsized);
        return tallied_more(0, 0, t);
    }
    raise_or_add(solved, k, circuits, marks, t)
}

// The corridors of an order, one after another.
pub fn stiffen_batch(
    solved: &Solved,
    order: &[u32],
    circuits: &mut [u32],
    banks: &mut [f64],
    floors: &mut [f64],
    upsized: &mut [u32],
    marks: &mut [u32],
    start: StiffeningTally,
) -> StiffeningTally
    requires stiffen_fits { StiffenFits solved.now.grid solved.now.level circuits.old banks.old floors.old upsized.old marks.old }
    requires named { All (λ (k : ℕ). k < length solved.now.grid.a) order.now × Room (length order.now) start }
    ensures { BatchStiffened order.now solved.now.g solved.now.grid solved.now.level
        circuits.old banks.old floors.old upsized.old marks.old start
        circuits.new banks.new floors.new upsized.new marks.new result }
{
    let mut t = start;
    for k in order.iter() {
        t = stiffen_one(
            solved,
            *k as usize,
            circuits,
            banks,
            floors,
            upsized,
            marks,
            t,
        );
    }
    t
}
