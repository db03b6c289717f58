// `plan_corridors` of planning.rs, stage by stage: the opening, the raises before the rounds, the rounds, and what comes after them.
ghost use Rattle.std.specs.Prelude.{◌≡◌};
ghost use Rattle.planning.specs.Close.{Closable, lent_to};
ghost use Rattle.planning.specs.Plan.{Openable, OpeningDone, rounds_for, start_of, Runnable, RanAll, plan_by, Plannable, OpenedPlan, PlanDone, Lendable};
ghost use Rattle.planning.specs.Tables.{grid_in, supply_in, opened_in};

use crate::fill::Kept;
use crate::finish::{Finishing, finish};
use crate::opening::{
    component_leaders, dispatch_components, first_levels, ground_components, injections,
    lower_bounds,
};
use crate::policy::expands;
use crate::raise_passes::raise_in_passes;
use crate::redesign::redesign;
use crate::rounds::{Progress, size_rounds};
use crate::tables::{Grid, Opened, Supply};
use mode::PlanMode;
use plan_defs::CorridorPlan;
use refusal::Refusal;

const PLANNING_MAX_ROUNDS: u32 = 64;

// Each bus's leader and injection, the grounds, the dispatch, and the levels and the circuits that planning starts from.
// What it writes goes in slices of its own: src/tables.rt.
fn open(
    mode: PlanMode,
    above: usize,
    tier: &[u32],
    supply: &Supply,
    grid: &Grid,
    initial: &[u32],
    leader: &mut [u32],
    injection: &mut [f64],
    ground: &mut [u32],
    mw: &mut [f64],
    level: &mut [u32],
    circuits: &mut [u32],
) -> Result<usize, Refusal>
    requires { Openable mode above tier.now (supply_in supply.now) grid.now.a.now grid.now.b.now initial.now leader.old injection.old ground.old mw.old level.old circuits.old }
    ensures { OpeningDone mode above tier.now (supply_in supply.now) grid.now.a.now grid.now.b.now initial.now
        leader.new injection.new ground.new mw.new level.new circuits.new result }
{
    component_leaders(tier.len(), grid.a.len(), grid.a, grid.b, leader);
    let count = ground_components(leader, supply, ground);
    dispatch_components(mode, leader, supply, mw)?;
    injections(supply, mw, injection);
    first_levels(above, tier, level);
    lower_bounds(initial, circuits);
    Ok(count)
}

// ---- the rounds
// None where the mode does not expand, and none without corridors.
fn rounds_to_run(mode: PlanMode, m: usize) -> u32
    ensures { result ≡ rounds_for mode m }
{
    if expands(mode) & !(m == 0) {
        return PLANNING_MAX_ROUNDS;
    }
    0
}

// How far the rounds are before the first: where none is to run, they have converged.
fn first_progress(mode: PlanMode, m: usize, promoted: u32) -> Progress
    ensures { result ≡ start_of mode m promoted }
{
    let none = !expands(mode) | (m == 0);
    Progress {
        rounds: 0,
        promoted,
        capacity: 0,
        stiffening: 0,
        converged: none,
        rested: none,
    }
}

// All rounds, the first from angles of zero, after so many moves of buses.
// What it writes goes in slices of its own: src/tables.rt.
fn run_rounds(
    mode: PlanMode,
    above: usize,
    promoted: u32,
    grid: &Grid,
    supply: &Supply,
    opened: &Opened,
    circuits: &mut [u32],
    banks: &mut [f64],
    floors: &mut [f64],
    upsized: &mut [u32],
    level: &mut [u32],
    marks: &mut [u32],
    angle: &mut [f64],
    flow: &mut [f64],
) -> Result<Progress, Refusal>
    requires { Runnable above promoted (grid_in grid.now) level.old (supply_in supply.now) (opened_in opened.now) circuits.old banks.old floors.old upsized.old marks.old angle.old flow.old }
    ensures { RanAll mode above promoted (grid_in grid.now) level.old (supply_in supply.now) (opened_in opened.now)
        circuits.old banks.old floors.old upsized.old
        level.new circuits.new banks.new floors.new upsized.new angle.new result }
{
    angle.fill(0.0);
    let start = first_progress(mode, grid.a.len(), promoted);
    let budget = rounds_to_run(mode, grid.a.len());
    if budget == 0 {
        return Ok(start);
    }
    size_rounds(
        mode, above, budget, start, grid, supply, opened, circuits, banks, floors, upsized, level,
        marks, angle, flow,
    )
}

// ---- the stages joined
// What planning answers, with what the plan keeps of filling.
#[derive(Drop)]
pub struct PlanRun {
    pub plan: CorridorPlan,
    pub kept: Kept,
}

// The answer, of the rounds and of what came after them.
fn planned(progress: Progress, grounds: u32, s: Finishing) -> PlanRun
    ensures plan { result.plan ≡ plan_by progress grounds s.filler s.closing }
    ensures kept { result.kept ≡ s.kept }
{
    let plan = CorridorPlan {
        rounds: progress.rounds,
        converged: progress.converged,
        capacity: progress.capacity,
        stiffening: progress.stiffening,
        filler: s.filler,
        promoted: progress.promoted,
        upsized: s.closing.upsized,
        overloaded: s.closing.overloaded,
        capped: s.closing.capped,
        loading: s.closing.loading,
        spread: s.closing.spread,
        grounds,
        added: s.closing.added,
    };
    PlanRun { plan, kept: s.kept }
}

// After the opening: the first designs, the raises, the rounds, and what comes after them.
// What it writes goes in slices of its own: src/tables.rt.
fn plan_opened(
    mode: PlanMode,
    target: u32,
    above: usize,
    grid: &Grid,
    supply: &Supply,
    opened: &Opened,
    circuits: &mut [u32],
    banks: &mut [f64],
    floors: &mut [f64],
    upsized: &mut [u32],
    level: &mut [u32],
    marks: &mut [u32],
    flow: &mut [f64],
    rate: &mut [f64],
    angle: &mut [f64],
    added: &mut [f64],
) -> Result<PlanRun, Refusal>
    requires plannable { Plannable (grid_in grid.now) level.old (supply_in supply.now) (opened_in opened.now) circuits.old banks.old floors.old upsized.old marks.old angle.old flow.old }
    requires closable { Closable above grid.now.ladder.now grid.now.a.now opened.now.leader.now upsized.old angle.old rate.old added.old }
    ensures { OpenedPlan mode target above (grid_in grid.now) level.old (supply_in supply.now) (opened_in opened.now)
        circuits.old upsized.old
        circuits.new level.new flow.new rate.new angle.new added.new result }
{
    redesign(grid, level, supply, floors, banks);
    let promoted = raise_in_passes(
        mode, grid, supply, opened, circuits, floors, banks, level, marks, angle, flow,
    )?;
    let progress = run_rounds(
        mode, above, promoted, grid, supply, opened, circuits, banks, floors, upsized, level,
        marks, angle, flow,
    )?;
    let finishing = finish(
        mode, target, above, grid, opened, banks, upsized, circuits, level, flow, rate, angle,
        added,
    )?;
    Ok(planned(progress, opened.grounds.len() as u32, finishing))
}

// All stages: the opening, and what comes after it. Of the work that is lent the banks, the floors and the injections are parts of
// `figures`, and `upsized`, the marks and the leaders parts of `counts`.
// What it writes goes in slices of its own: src/tables.rt.
pub fn run(
    mode: PlanMode,
    target: u32,
    above: usize,
    grid: &Grid,
    tier: &[u32],
    supply: &Supply,
    initial: &[u32],
    circuits: &mut [u32],
    flow: &mut [f64],
    rate: &mut [f64],
    mw: &mut [f64],
    angle: &mut [f64],
    level: &mut [u32],
    ground: &mut [u32],
    added: &mut [f64],
    figures: &mut [f64],
    counts: &mut [u32],
) -> Result<PlanRun, Refusal>
    requires { Lendable mode target above (grid_in grid.now) tier.now (supply_in supply.now) initial.now
        (lent_to circuits.old flow.old rate.old mw.old angle.old level.old ground.old added.old figures.old counts.old) }
    ensures { PlanDone mode target above (grid_in grid.now) tier.now (supply_in supply.now) initial.now
        circuits.new flow.new rate.new mw.new angle.new level.new ground.new added.new result }
{
    let n = tier.len();
    let m = grid.a.len();
    figures.fill(0.0);
    counts.fill(0);
    let (banks, figures) = figures.split_at_mut(m);
    let (floors, figures) = figures.split_at_mut(m);
    let (injection, _) = figures.split_at_mut(n);
    let (upsized, counts) = counts.split_at_mut(m);
    let (marks, counts) = counts.split_at_mut(n);
    let (leader, _) = counts.split_at_mut(n);
    let count = open(
        mode, above, tier, supply, grid, initial, leader, injection, ground, mw, level, circuits,
    )?;
    let opened = Opened {
        leader,
        grounds: &ground[0..count],
        injection,
    };
    plan_opened(
        mode, target, above, grid, supply, &opened, circuits, banks, floors, upsized, level, marks,
        flow, rate, angle, added,
    )
}
