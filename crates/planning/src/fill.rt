// Filling, after "3. Fill to the requested branch count" of `plan_corridors`: the order, heaviest planned loading first, and then
// round and round it, a circuit to each corridor that has fewer than its own cap, or than four where it has none, up to the target.
ghost use Rattle.std.specs.Prelude.{◌≡◌, ◌<◌, ◌≤◌, length};
ghost use Rattle.plan_defs.specs.Constants.{most_corridors};
ghost use Rattle.plan_defs.specs.Lists.{sum};
ghost use Rattle.plan_defs.specs.Case.{full_of};
ghost use Rattle.plan_defs.specs.Fill.{loading, order_of, fill_once, fill_rounds, fill_turns, fill};
ghost use Rattle.planning.specs.Design.{Lines};
ghost use Rattle.planning.specs.Fill.{designs_for, Loaded, Fillable, filled_as, gain_of, Tallied, Counted, caps_for};
ghost use Rattle.planning.specs.Tables.{grid_in};

use crate::design::fill_drawn;
use crate::keys::Keys;
use crate::policy::{full_at, promotes};
use crate::tables::Grid;
use arrayvec::ArrayVec;
use loops::{MOST_CAP, MOST_CORRIDORS, magnitude};
use mode::PlanMode;

// As many turns as a cap may be fill every corridor, or reach the target.
const FILL_TURNS: u32 = MOST_CAP;

// ---- what the order goes by
pub fn loading(flow: f64, count: u32, rate: f64) -> f64
    ensures { result ≡ loading flow count rate }
{
    magnitude(flow) / (count as f64 * rate)
}

// ---- the order of the corridors
pub fn fill_order(
    grid: &Grid,
    level: &[u32],
    banks: &[f64],
    circuits: &[u32],
    flow: &[f64],
) -> ArrayVec<u32, MOST_CORRIDORS>
    requires lines { Lines (grid_in grid.now) level.now }
    requires loaded { Loaded grid.now.a.now banks.now circuits.now flow.now }
    ensures { result.items ≡ order_of (length grid.now.a.now) (designs_for (grid_in grid.now) level.now banks.now) circuits.now flow.now }
{
    let m = grid.a.len();
    let mut loadings = [0.0; MOST_CORRIDORS];
    let mut kvs = [0.0; MOST_CORRIDORS];
    let loadings = &mut loadings[..m];
    let kvs = &mut kvs[..m];
    fill_drawn(grid, level, banks, loadings, |d, k| {
        loading(flow[k], circuits[k], d.rate_a)
    });
    fill_drawn(grid, level, banks, kvs, |d, _| d.kv);
    let keys = Keys {
        first: loadings,
        second: kvs,
        third: grid.km,
    };
    keys.order()
}

// ---- what a plan keeps of filling
// The circuits before filling, and the order.
#[derive(Drop)]
pub struct Kept {
    pub before: ArrayVec<u32, MOST_CORRIDORS>,
    pub order: ArrayVec<u32, MOST_CORRIDORS>,
}

pub fn keep(circuits: &[u32], order: ArrayVec<u32, MOST_CORRIDORS>) -> Kept
    requires { length circuits.now ≤ most_corridors }
    ensures before { result.before.items ≡ circuits.now }
    ensures order { result.order ≡ order }
{
    let before = ArrayVec::try_from(circuits).unwrap();
    Kept { before, order }
}

// ---- filling
pub fn total(circuits: &[u32]) -> u32
    requires { Counted circuits.now }
    ensures { result ≡ sum circuits.now }
{
    circuits.iter().sum::<u32>()
}

// Circuits in all, and how many of them filling added.
#[derive(Clone, Copy)]
pub struct Filling {
    pub total: u32,
    pub filler: u32,
}

// The circuits that a corridor gets in one turn, of which it may have so many.
fn gain(total: u32, target: u32, full: u32, count: u32) -> u32
    ensures { result ≡ gain_of total target full count }
{
    if (total < target) & (count < full) {
        1
    } else {
        0
    }
}

// Once round, a corridor after another.
fn fill_once(target: u32, cap: &[u32], order: &[u32], circuits: &mut [u32], t: Filling) -> Filling
    requires fillable { Fillable order.now cap.now circuits.old }
    requires tallied { Tallied t }
    ensures filled { filled_as circuits.new result ≡ fill_once (full_of cap.now) target order.now (filled_as circuits.old t) }
    ensures tally { Tallied result }
{
    let mut total = t.total;
    let mut filler = t.filler;
    for corridor in order {
        let k = *corridor as usize;
        let count = circuits[k];
        let more = gain(total, target, full_at(cap[k]), count);
        circuits[k] = count + more;
        total += more;
        filler += more;
    }
    Filling { total, filler }
}

fn fill_rounds(
    target: u32,
    cap: &[u32],
    order: &[u32],
    circuits: &mut [u32],
    start: Filling,
) -> Filling
    requires fillable { Fillable order.now cap.now circuits.old }
    requires tallied { Tallied start }
    ensures { filled_as circuits.new result ≡ fill_rounds fill_turns (full_of cap.now) target order.now (filled_as circuits.old start) }
{
    let mut t = start;
    for _turn in 0..FILL_TURNS {
        t = fill_once(target, cap, order, circuits, t);
    }
    t
}

// Fills in an order of the corridors, and answers how many circuits that added.
pub fn fill(mode: PlanMode, target: u32, cap: &[u32], order: &[u32], circuits: &mut [u32]) -> u32
    requires fillable { Fillable order.now cap.now circuits.old }
    requires counted { Counted circuits.old }
    ensures circuits { circuits.new ≡ (fill (caps_for mode cap.now) target order.now circuits.old).counts }
    ensures filler { result ≡ (fill (caps_for mode cap.now) target order.now circuits.old).filler }
{
    if !promotes(mode) {
        return 0;
    }
    let before = Filling {
        total: total(circuits),
        filler: 0,
    };
    let t = fill_rounds(target, cap, order, circuits, before);
    t.filler
}
