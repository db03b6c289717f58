// The opening of a plan: the components of the corridors and their grounds, the dispatch of each component, and what each bus
// injects; then the circuits and the levels that planning starts from. After `plan_corridors` of planning.rs, up to its step 1.
ghost use Rattle.std.specs.Prelude.{◌≡◌, ℕ, ◌+◌, ◌<◌, ◌≤◌, max, map, length, slice_index};
ghost use Rattle.std.specs.Float.Ieee.{neg};
ghost use Rattle.loops.specs.Figures.{at, over};
ghost use Rattle.loops.specs.Loops.{iter, tab};
ghost use Rattle.leaders.specs.Leaders.{leaders_of};
ghost use Rattle.plan_defs.specs.Components.{leads, members, units_in, ground_of, grounds_of};
ghost use Rattle.plan_defs.specs.Constants.{base_mva, most_levels};
ghost use Rattle.plan_defs.specs.Dispatch.{scatter, serve, dispatch_of, inject_at, injections};
ghost use Rattle.plan_defs.specs.Lists.{sum_over};
ghost use Rattle.plan_defs.specs.Outcome.{up_to};
ghost use Rattle.planning.specs.Opening.{stage_of, stage_if, bus_case, slack_case, dispatch_case, injection_case, Joined, Picked};

use crate::solve::BASE_MVA;
use crate::tables::Supply;
use crate::top_up::give;
use arrayvec::ArrayVec;
use loops::MOST_GENERATORS;
use mode::PlanMode;
use refusal::Refusal;

// ---- components and grounds
// That there are as many leaders as loads six functions ask, from `ground_of` to `dispatch_components`. No struct holds both: the leaders
// are a part of the lent work that `component_leaders` writes after the columns are joined in `Supply`, and `Opened` holds them only
// once the grounds are there.
// Each bus's leader.
pub fn component_leaders(n: usize, m: usize, a: &[u32], b: &[u32], leader: &mut [u32])
    requires { Joined n m a.now b.now leader.old }
    ensures { leader.new ≡ leaders_of n a.now b.now }
{
    // A case's corridors are sound, so there is no refusal.
    let _ = leaders::leaders(n, m, a, b, leader);
}

// The ground of a component: the bus of its first slack unit, else its leader.
fn ground_of(root: u32, leader: &[u32], supply: &Supply) -> u32
    requires { length leader.now ≡ length supply.now.load.now }
    ensures { result ≡ ground_of (slack_case supply.now.bus.now supply.now.slack.now) leader.now root }
{
    let bus = supply.bus;
    let slack = supply.slack;
    let first = loops::first_fault(
        bus.len(),
        |k| (leader[bus[k] as usize] != root) | (slack[k] == 0),
    );
    match first {
        Some(k) => bus[k],
        None => root,
    }
}

// The ground of each component, by ascending leader, at the front of `ground`, and zero past them; how many there are.
pub fn ground_components(leader: &[u32], supply: &Supply, ground: &mut [u32]) -> usize
    requires { (length leader.now ≡ length supply.now.load.now) × (length ground.old ≡ length leader.now) }
    ensures count { result ≡ length (grounds_of (slack_case supply.now.bus.now supply.now.slack.now) leader.now) }
    ensures held { ground.new
        ≡ up_to (length leader.now) 0 (grounds_of (slack_case supply.now.bus.now supply.now.slack.now) leader.now) }
{
    ground.fill(0);
    let mut count = 0;
    for i in 0..leader.len() {
        if leader[i] as usize == i {
            ground[count] = ground_of(leader[i], leader, supply);
            count += 1;
        }
    }
    count
}

// ---- dispatch
// That there is a figure of `mw` for each unit five functions ask, here and of the injections: no struct holds both, since the dispatch
// writes `mw`, and `inject` takes a column of the units too.
// A component's generators, ascending.
fn units_in(root: u32, leader: &[u32], supply: &Supply) -> ArrayVec<u32, MOST_GENERATORS>
    requires { length leader.now ≡ length supply.now.load.now }
    ensures { result.items ≡ units_in (bus_case supply.now.bus.now) leader.now root }
{
    let mut units = ArrayVec::new();
    for (k, i) in supply.bus.iter().enumerate() {
        if leader[*i as usize] == root {
            units.push(k as u32);
        }
    }
    units
}

// A component's load, MW.
fn demand_of(root: u32, leader: &[u32], load: &[f64]) -> f64
    requires { length load.now ≡ length leader.now }
    ensures { result ≡ sum_over (at load.now) (members leader.now root) }
{
    let mut demand = 0.0;
    for (own, power) in leader.iter().zip(load) {
        if *own == root {
            demand = demand + *power;
        }
    }
    demand
}

// A column's figures of the units picked.
fn figures_of(column: &[f64], units: &[u32]) -> ArrayVec<f64, MOST_GENERATORS>
    requires { Picked units.now (length column.now) }
    ensures { result.items ≡ map (at column.now) units.now }
{
    let mut chosen = ArrayVec::new();
    for k in units {
        chosen.push(column[*k as usize]);
    }
    chosen
}

// Each output to its unit's place.
fn hand_out(units: &[u32], out: &[f64], mw: &mut [f64])
    requires { Picked units.now (length mw.old) × (length out.now ≡ length units.now) }
    ensures { mw.new ≡ scatter units.now out.now mw.old }
{
    for (k, power) in units.iter().zip(out) {
        mw[*k as usize] = *power;
    }
}

// What the units of a component give, MW; or refusal 8, which names a unit by its index among all generators.
fn serve(
    mode: PlanMode,
    root: u32,
    leader: &[u32],
    supply: &Supply,
    mw: &mut [f64],
) -> Result<(), Refusal>
    requires { (length leader.now ≡ length supply.now.load.now) × (length mw.old ≡ length supply.now.bus.now) }
    ensures { stage_of result mw.new
        ≡ serve (dispatch_case mode supply.now.load.now supply.now.bus.now supply.now.pmin.now supply.now.pmax.now supply.now.c1.now supply.now.c2.now)
        leader.now root mw.old }
{
    let picked = units_in(root, leader, supply);
    let units = picked.as_slice();
    let least = figures_of(supply.pmin, units);
    let most = figures_of(supply.pmax, units);
    let linear = figures_of(supply.c1, units);
    let quadratic = figures_of(supply.c2, units);
    let demand = demand_of(root, leader, supply.load);
    let mut room = [0.0; MOST_GENERATORS];
    let out = &mut room[0..units.len()];
    give(mode, demand, &least, &most, &linear, &quadratic, out).map_err(|f| Refusal::Cost(
        units[f.index()] as usize,
    ))?;
    hand_out(units, out, mw);
    Ok(())
}

// The component that bus i leads, where it leads one.
fn serve_led(
    mode: PlanMode,
    i: usize,
    leader: &[u32],
    supply: &Supply,
    mw: &mut [f64],
) -> Result<(), Refusal>
    requires { (i < length leader.now) × (length leader.now ≡ length supply.now.load.now) × (length mw.old ≡ length supply.now.bus.now) }
    ensures { stage_of result mw.new
        ≡ stage_if (leads leader.now i)
        (serve (dispatch_case mode supply.now.load.now supply.now.bus.now supply.now.pmin.now supply.now.pmax.now supply.now.c1.now supply.now.c2.now)
        leader.now i mw.old)
        mw.old }
{
    if leader[i] as usize == i {
        return serve(mode, leader[i], leader, supply, mw);
    }
    Ok(())
}

// What each generator gives, MW, component by component with ascending leader; or the first refusal 8.
pub fn dispatch_components(
    mode: PlanMode,
    leader: &[u32],
    supply: &Supply,
    mw: &mut [f64],
) -> Result<(), Refusal>
    requires { (length leader.now ≡ length supply.now.load.now) × (length mw.old ≡ length supply.now.bus.now) }
    ensures { stage_of result mw.new
        ≡ dispatch_of (dispatch_case mode supply.now.load.now supply.now.bus.now supply.now.pmin.now supply.now.pmax.now supply.now.c1.now supply.now.c2.now)
        leader.now }
{
    mw.fill(0.0);
    for i in 0..leader.len() {
        serve_led(mode, i, leader, supply, mw)?;
    }
    Ok(())
}

// ---- injections
// Each bus's load, taken off.
fn withdraw(load: &[f64], injection: &mut [f64])
    requires { length injection.old ≡ length load.now }
    ensures { injection.new ≡ tab (length load.now) (λ i. neg (at load.now i)) }
{
    loops::fill(injection, |i| -load[i]);
}

// A column of the units' figures, added at their buses.
pub fn inject(supply: &Supply, mw: &[f64], injection: &mut [f64])
    requires { (length supply.now.load.now ≤ length injection.old) × (length mw.now ≡ length supply.now.bus.now) }
    ensures { injection.new
        ≡ iter (inject_at (bus_case supply.now.bus.now) mw.now) (length supply.now.bus.now) 0 injection.old }
{
    for (i, power) in supply.bus.iter().zip(mw) {
        let i = *i as usize;
        injection[i] = injection[i] + *power;
    }
}

fn per_unit(injection: &mut [f64])
    ensures { injection.new ≡ tab (length injection.old) (λ i. over (at injection.old i) base_mva) }
{
    for power in injection.iter_mut() {
        *power /= BASE_MVA;
    }
}

// What each bus injects, per unit: what its generators give less its load.
pub fn injections(supply: &Supply, mw: &[f64], injection: &mut [f64])
    requires { (length mw.now ≡ length supply.now.bus.now) × (length injection.old ≡ length supply.now.load.now) }
    ensures { injection.new ≡ injections (injection_case supply.now.load.now supply.now.bus.now) mw.now }
{
    withdraw(supply.load, injection);
    inject(supply, mw, injection);
    per_unit(injection);
}

// ---- where planning starts
// The lower bound of each corridor's circuits: what it has, and one at least.
pub fn lower_bounds(initial: &[u32], circuits: &mut [u32])
    requires { length circuits.old ≡ length initial.now }
    ensures { circuits.new ≡ tab (length initial.now) (λ k. max (slice_index initial.now k) 1) }
{
    loops::fill(circuits, |k| initial[k].max(1));
}

// Each bus's level of the ladder: its tier, past the levels above the request.
pub fn first_levels(above: usize, tier: &[u32], level: &mut [u32])
    requires { (length level.old ≡ length tier.now) × (above ≤ most_levels) × ((i : ℕ) → i < length tier.now → slice_index tier.now i < most_levels) }
    ensures { level.new ≡ tab (length tier.now) (λ i. above + slice_index tier.now i) }
{
    loops::fill(level, |i| above as u32 + tier[i]);
}
