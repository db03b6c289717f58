// Sizing: one corridor after another with the flows of the round's start. The first loop of a round of `plan_corridors`.
ghost use Rattle.std.specs.Prelude.{◌≡◌, ◌+◌, ◌<◌, ◌≤◌, length, slice_index, slice_set};
ghost use Rattle.plan_defs.specs.Constants.{most_cap, subtransmission_max_circuits};
ghost use Rattle.plan_defs.specs.Build.{bank_below};
ghost use Rattle.plan_defs.specs.Raise.{top_of, mark_if};
ghost use Rattle.plan_defs.specs.Size.{required_for, enough, next_bank, enlarges, raises_for};
ghost use Rattle.planning.specs.RaiseMarks.{largest_count, pairs_for, PairFits};
ghost use Rattle.planning.specs.Size.{size_for, grow_for, larger_bank, Adds, Grows, CorridorFits, CorridorSized};
ghost use Rattle.planning.specs.Tables.{grid_in};

use crate::design::{circuit, set_transformer_mva};
use crate::policy::{cap_at, promotes};
use crate::raise_marks::mark_raise_to;
use crate::tables::Grid;
use loops::{lesser, magnitude};
use mode::PlanMode;
use plan_defs::CircuitDesign;
use std::num::saturating_f64_to_u32;

// The share of a rating that the planning flow may take.
pub const PLANNING_UTILISATION: f64 = 0.9;

// The step of a larger bank, MVA.
const TRANSFORMER_SIZE_STEP_MVA: f64 = 50.0;

// A corridor that needs more circuits is raised where it can be.
pub const UPGRADE_CIRCUITS: u32 = 2;

// What sizing adds up.
#[derive(Clone, Copy)]
pub struct Tally {
    // Circuits added in the rounds so far.
    pub capacity: u32,
    // Whether this round added circuits or a bank, and whether a corridor wanted more than its cap.
    pub added: bool,
    pub capped: bool,
}

// ---- the rating that a flow needs, and whether so many circuits have it
fn required_for(flow: f64) -> f64
    ensures { result ≡ required_for flow }
{
    magnitude(flow) / PLANNING_UTILISATION
}

fn enough(required: f64, count: u32, d: CircuitDesign) -> bool
    ensures { result ≡ enough required count d }
{
    required <= count as f64 * d.rate_a
}

// ---- a larger bank, up to the line
fn next_bank(required: f64, count: u32, d: CircuitDesign) -> f64
    ensures { result ≡ next_bank required count d }
{
    let per_circuit = required / count as f64 / d.rate_spread;
    let sized = (per_circuit / TRANSFORMER_SIZE_STEP_MVA).ceil() * TRANSFORMER_SIZE_STEP_MVA;
    lesser(sized, d.line_rate)
}

// A bank below its line can be made larger.
pub fn bank_below(d: CircuitDesign) -> bool
    ensures { result ≡ bank_below d }
{
    d.is_transformer & (d.transformer_mva < d.line_rate)
}

fn enlarges(required: f64, count: u32, d: CircuitDesign, next: f64) -> bool
    ensures { result ≡ enlarges required count d next }
{
    let has = enough(required, count, d);
    let below = bank_below(d);
    !has & (below & (d.transformer_mva < next))
}

// The larger bank where the circuits have not the rating and one below its line would be made larger.
fn larger_bank(required: f64, count: u32, d: CircuitDesign) -> Option<f64>
    ensures { result ≡ larger_bank required count d }
{
    let next = next_bank(required, count, d);
    enlarges(required, count, d, next).then_some(next)
}

// Keeps the bank of corridor k's design, which was made larger; a redesign keeps it too.
pub fn keep_bank(
    k: usize,
    d: CircuitDesign,
    banks: &mut [f64],
    floors: &mut [f64],
    upsized: &mut [u32],
)
    requires { (k < length banks.old) × (k < length floors.old) × (k < length upsized.old) }
    ensures banks { banks.new ≡ slice_set banks.old k d.transformer_mva }
    ensures floors { floors.new ≡ slice_set floors.old k d.transformer_mva }
    ensures upsized { upsized.new ≡ slice_set upsized.old k 1 }
{
    banks[k] = d.transformer_mva;
    floors[k] = d.transformer_mva;
    upsized[k] = 1;
}

// ---- more circuits, up to the cap
fn add(cap: u32, need: u32, k: usize, circuits: &mut [u32], t: Tally) -> Tally
    requires { (k < length circuits.old) × (cap ≤ subtransmission_max_circuits) × (t.capacity + cap ≤ largest_count) }
    ensures { Adds cap need k circuits.old t circuits.new result }
{
    let count = circuits[k];
    let most = need.min(cap);
    let capped = t.capped | (cap < need);
    if count < most {
        circuits[k] = most;
        return Tally {
            capacity: t.capacity + (most - count),
            added: true,
            capped,
        };
    }
    Tally { capped, ..t }
}

// A corridor that needs more than two is raised where it can be, and gets none.
fn raises_for(
    mode: PlanMode,
    need: u32,
    level: &[u32],
    grid: &Grid,
    k: usize,
    marks: &mut [u32],
) -> bool
    requires { PairFits level.now grid.now.a.now grid.now.b.now marks.old k }
    ensures marks { marks.new ≡ mark_if (raises_for mode (top_of (pairs_for grid.now.a.now grid.now.b.now) level.now k) need) (pairs_for grid.now.a.now grid.now.b.now) level.now k marks.old }
    ensures answer { result ≡ raises_for mode (top_of (pairs_for grid.now.a.now grid.now.b.now) level.now k) need }
{
    if promotes(mode) & (need > UPGRADE_CIRCUITS) {
        return mark_raise_to(level, grid, k, 0, marks);
    }
    false
}

fn grow(
    mode: PlanMode,
    level: &[u32],
    grid: &Grid,
    k: usize,
    required: f64,
    d: CircuitDesign,
    circuits: &mut [u32],
    marks: &mut [u32],
    t: Tally,
) -> Tally
    requires pair_fits { PairFits level.now grid.now.a.now grid.now.b.now marks.old k }
    requires k_in_bounds { (k < length circuits.old) × (k < length grid.now.cap.now) × (slice_index grid.now.cap.now k ≤ most_cap) × (t.capacity + subtransmission_max_circuits ≤ largest_count) }
    ensures { Grows (grow_for mode grid.now.a.now grid.now.b.now grid.now.cap.now) level.now required k d circuits.old marks.old t circuits.new marks.new result }
{
    if enough(required, circuits[k], d) {
        return t;
    }
    let need = saturating_f64_to_u32((required / d.rate_a).ceil());
    if raises_for(mode, need, level, grid, k, marks) {
        return t;
    }
    let most = cap_at(mode, grid.cap[k], d.kv);
    add(most, need, k, circuits, t)
}

// ---- one corridor: a larger bank counts at once
// What it writes goes in slices of its own: src/tables.rt.
pub fn size_corridor(
    mode: PlanMode,
    grid: &Grid,
    level: &[u32],
    flow: &[f64],
    k: usize,
    circuits: &mut [u32],
    banks: &mut [f64],
    floors: &mut [f64],
    upsized: &mut [u32],
    marks: &mut [u32],
    t: Tally,
) -> Tally
    requires { CorridorFits (grid_in grid.now) level.now flow.now k circuits.old banks.old floors.old upsized.old marks.old t }
    ensures { CorridorSized (size_for mode (length level.now) (grid_in grid.now))
        level.now flow.now k
        circuits.old banks.old floors.old upsized.old marks.old t
        circuits.new banks.new floors.new upsized.new marks.new result }
{
    let required = required_for(flow[k]);
    let count = circuits[k];
    let mut d = circuit(grid, level, k, banks[k]);
    let mut s = t;
    if let Some(mva) = larger_bank(required, count, d) {
        d = set_transformer_mva(d, mva);
        keep_bank(k, d, banks, floors, upsized);
        s.added = true;
    }
    grow(mode, level, grid, k, required, d, circuits, marks, s)
}
