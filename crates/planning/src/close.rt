// The closing figures of `plan_corridors`, of the circuits after filling; and the slices as planning leaves them.
ghost use Rattle.std.specs.Prelude.{◌≡◌, ℕ, ◌+◌, ◌-◌, ◌<◌, ◌≤◌, map, length, if◌then◌else◌, slice_index, Float};
ghost use Rattle.loops.specs.Figures.{at, nought};
ghost use Rattle.loops.specs.Loops.{tab};
ghost use Rattle.plan_defs.specs.Constants.{most_corridors, most_levels};
ghost use Rattle.plan_defs.specs.Lists.{each};
ghost use Rattle.plan_defs.specs.Components.{members};
ghost use Rattle.plan_defs.specs.Closing.{spread_of, max_loading, overloaded_of, capped_of, upsized_of, least_of, tiers_of, added_of};
ghost use Rattle.plan_defs.specs.Outcome.{slices, up_to, kept_if};
ghost use Rattle.plan_defs.specs.declared.CircuitDesign.{CircuitDesign};
ghost use Rattle.planning.specs.Design.{Lines};
ghost use Rattle.planning.specs.Fill.{designs_for, Loaded};
ghost use Rattle.planning.specs.Close.{corridors_of, levels_for, wider_by, loadings_by, Rated, cap_full, added_at, Closable, closing_of, zeroed};
ghost use Rattle.planning.specs.Tables.{grid_in};

use crate::design::{circuit, fill_drawn};
use crate::figures::counting;
use crate::fill::loading;
use crate::policy::{cap_at, expands};
use crate::size::PLANNING_UTILISATION;
use crate::tables::Grid;
use loops::{greater, lesser, magnitude};
use mode::PlanMode;

// A loading above 1, or a need above the circuits there are, counts where it is above by more than this.
const LOADING_TOLERANCE: f64 = 1e-9;

// The closing figures.
#[derive(Clone, Copy)]
pub struct Closing {
    pub upsized: u32,
    pub overloaded: u32,
    pub capped: u32,
    pub loading: f64,
    pub spread: f64,
    pub added: u32,
}

// ---- the widest spread of a component's angles, radians
// Of a component's angles and a start, what `pick` leaves.
fn extreme<F: Fn(f64, f64) -> f64>(
    leader: &[u32],
    angle: &[f64],
    root: usize,
    start: f64,
    pick: F,
) -> f64
    requires angle_len { length angle.now ≡ length leader.now }
    requires callable { (x y : Float) → F.pre pick x y }
    ensures { (f : Float → Float → Float) → ((x y r : Float) → F.post pick x y r → r ≡ f x y)
        → result ≡ each (λ i m. f m (at angle.now i)) (members leader.now root) start }
{
    let mut most = start;
    for (own, theta) in leader.iter().zip(angle) {
        if *own as usize == root {
            most = pick(most, *theta);
        }
    }
    most
}

// The widest spread with bus i's component, where it leads one.
fn wider(leader: &[u32], angle: &[f64], i: usize, most: f64) -> f64
    requires { (length angle.now ≡ length leader.now) × (i < length leader.now) }
    ensures { result ≡ wider_by leader.now angle.now i most }
{
    if leader[i] as usize == i {
        // Each by a closure: of another crate's function as a value the check has no contract.
        let top = loops::infinity();
        let highest = extreme(leader, angle, i, -top, |m, x| greater(m, x));
        let lowest = extreme(leader, angle, i, top, |m, x| lesser(m, x));
        return greater(most, highest - lowest);
    }
    most
}

fn spread(leader: &[u32], angle: &[f64]) -> f64
    requires { length angle.now ≡ length leader.now }
    ensures { result ≡ spread_of leader.now angle.now }
{
    let mut most = 0.0;
    for i in 0..leader.len() {
        most = wider(leader, angle, i, most);
    }
    most
}

// ---- loadings
// One index for three slices, as the clause has it: zipped, the loop would want a law of what it yields.
fn max_loading(circuits: &[u32], flow: &[f64], rate: &[f64]) -> f64
    requires { Rated circuits.now flow.now rate.now }
    ensures { result ≡ max_loading (loadings_by circuits.now flow.now rate.now) }
{
    let mut most = 0.0;
    for k in 0..rate.len() {
        most = greater(most, loading(flow[k], circuits[k], rate[k]));
    }
    most
}

fn overloaded(circuits: &[u32], flow: &[f64], rate: &[f64]) -> u32
    requires { Rated circuits.now flow.now rate.now }
    ensures { result ≡ overloaded_of (loadings_by circuits.now flow.now rate.now) }
{
    counting(rate.len(), |k| {
        loading(flow[k], circuits[k], rate[k]) > 1.0 + LOADING_TOLERANCE
    })
}

// ---- corridors at their cap and in want of more circuits
fn cap_full(mode: PlanMode, cap: u32, count: u32, flow: f64, rate: f64) -> bool
    ensures { result ≡ cap_full mode cap count flow rate }
{
    let need = magnitude(flow) / PLANNING_UTILISATION / rate;
    expands(mode) & ((cap <= count) & (need > count as f64 + LOADING_TOLERANCE))
}

fn capped(
    mode: PlanMode,
    grid: &Grid,
    level: &[u32],
    banks: &[f64],
    circuits: &[u32],
    flow: &[f64],
) -> u32
    requires lines { Lines (grid_in grid.now) level.now }
    requires loaded { Loaded grid.now.a.now banks.now circuits.now flow.now × (length grid.now.cap.now ≡ length grid.now.a.now) }
    ensures { result ≡ capped_of (corridors_of mode (length grid.now.a.now) grid.now.cap.now) (designs_for (grid_in grid.now) level.now banks.now) circuits.now flow.now }
{
    counting(grid.a.len(), |k| {
        let d = circuit(grid, level, k, banks[k]);
        let most = cap_at(mode, grid.cap[k], d.kv);
        cap_full(mode, most, circuits[k], flow[k], d.rate_a)
    })
}

// Of a corridor, `upsized` is 0 or 1 and no bool: the lent work of counts holds it.
fn count_upsized(upsized: &[u32]) -> u32
    requires { length upsized.now ≤ most_corridors }
    ensures { result ≡ upsized_of upsized.now }
{
    upsized.iter().filter(|own| 1 <= **own).count() as u32
}

// ---- levels
// The levels above the request that no bus took. That `above` is at most `most_levels` five functions ask, here and in opening.rt and
// budgets.rt: it is one number of the request, in no column and no struct.
fn unused(above: usize, level: &[u32]) -> u32
    requires { above ≤ most_levels }
    ensures { result ≡ least_of above level.now }
{
    level
        .iter()
        .fold(above as u32, |least, own| least.min(*own))
}

// Levels become tiers: they count from the highest level in use, or from the request.
fn shift_back(unused: u32, level: &mut [u32])
    requires { (i : ℕ) → i < length level.old → unused ≤ slice_index level.old i }
    ensures { level.new ≡ map (λ (l : ℕ). l - unused) level.old }
{
    for own in level.iter_mut() {
        *own -= unused;
    }
}

fn added_at(ladder: &[f64], above: usize, unused: usize, j: usize) -> f64
    requires { (above ≤ length ladder.now) × (above ≤ most_levels) × (unused ≤ above) × (j < above) }
    ensures { result ≡ added_at ladder.now above unused j }
{
    if unused + j < above {
        return ladder[unused + j];
    }
    0.0
}

// The levels added, the highest first, and zero past them.
fn add_levels(ladder: &[f64], above: usize, unused: usize, added: &mut [f64])
    requires { (above ≤ length ladder.now) × (above ≤ most_levels) × (unused ≤ above) × (length added.old ≡ above) }
    ensures { added.new ≡ tab above (added_at ladder.now above unused) }
{
    loops::fill(added, |j| added_at(ladder, above, unused, j));
}

// The closing figures: the ratings, the levels added, and tiers in the place of levels.
// What it writes goes in slices of its own, and it reads what the stages before it wrote in theirs: src/tables.rt.
pub fn close(
    mode: PlanMode,
    above: usize,
    grid: &Grid,
    leader: &[u32],
    banks: &[f64],
    circuits: &[u32],
    upsized: &[u32],
    flow: &[f64],
    angle: &[f64],
    level: &mut [u32],
    rate: &mut [f64],
    added: &mut [f64],
) -> Closing
    requires lines { Lines (grid_in grid.now) level.old }
    requires loaded { Loaded grid.now.a.now banks.now circuits.now flow.now × (length grid.now.cap.now ≡ length grid.now.a.now) }
    requires closable { Closable above grid.now.ladder.now grid.now.a.now leader.now upsized.now angle.now rate.old added.old }
    ensures closing { result ≡ closing_of mode grid.now.cap.now above leader.now level.old (designs_for (grid_in grid.now) level.old banks.now) circuits.now upsized.now flow.now angle.now }
    ensures rate { rate.new ≡ map (λ (d : CircuitDesign). d.rate_a) (designs_for (grid_in grid.now) level.old banks.now) }
    ensures tier { level.new ≡ tiers_of (levels_for above grid.now.ladder.now) level.old }
    ensures added { added.new ≡ up_to above nought (added_of (levels_for above grid.now.ladder.now) level.old) }
{
    fill_drawn(grid, level, banks, rate, |d, _| d.rate_a);
    let too_heavy = overloaded(circuits, flow, rate);
    let highest_loading = max_loading(circuits, flow, rate);
    let at_cap = capped(mode, grid, level, banks, circuits, flow);
    let enlarged = count_upsized(upsized);
    let widest = spread(leader, angle);
    let dropped = unused(above, level);
    add_levels(grid.ladder, above, dropped as usize, added);
    shift_back(dropped, level);
    Closing {
        upsized: enlarged,
        overloaded: too_heavy,
        capped: at_cap,
        loading: highest_loading,
        spread: widest,
        added: above as u32 - dropped,
    }
}

// ---- the slices at the end
// What a plan keeps of filling, or nothing.
pub fn keep_if(keeps: bool, kept: &[u32], to: &mut [u32])
    requires { length kept.now ≡ length to.old }
    ensures { to.new ≡ kept_if keeps (length to.old) kept.now }
{
    if keeps {
        to.copy_from_slice(kept);
    } else {
        to.fill(0);
    }
}

// After 8 or 9 every place is zero.
// These thirteen slices are all that `plan_corridors` is lent to write in, in no struct: src/tables.rt.
pub fn clear(
    circuits: &mut [u32],
    flow: &mut [f64],
    rate: &mut [f64],
    before: &mut [u32],
    order: &mut [u32],
    kept_cap: &mut [u32],
    mw: &mut [f64],
    angle: &mut [f64],
    tier: &mut [u32],
    ground: &mut [u32],
    added: &mut [f64],
    figures: &mut [f64],
    counts: &mut [u32],
)
    ensures { slices circuits.new flow.new rate.new before.new order.new kept_cap.new mw.new angle.new tier.new ground.new added.new figures.new counts.new
        ≡ zeroed (slices circuits.old flow.old rate.old before.old order.old kept_cap.old mw.old angle.old tier.old ground.old added.old figures.old counts.old) }
{
    circuits.fill(0);
    flow.fill(0.0);
    rate.fill(0.0);
    before.fill(0);
    order.fill(0);
    kept_cap.fill(0);
    mw.fill(0.0);
    angle.fill(0.0);
    tier.fill(0);
    ground.fill(0);
    added.fill(0.0);
    figures.fill(0.0);
    counts.fill(0);
}
