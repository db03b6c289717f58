// All of planning after the rounds: a solve, the filling, the solve after it, and the closing figures. Both solves start from zero.
ghost use Rattle.std.specs.Prelude.{◌≡◌, ℕ, List, length};
ghost use Rattle.angles_defs.specs.Network.{zeros};
ghost use Rattle.plan_defs.specs.Solve.{edges_for, planning_state};
ghost use Rattle.planning.specs.Solve.{peak_for, solved_of, Drawing, Lent};
ghost use Rattle.planning.specs.Fill.{designs_for};
ghost use Rattle.planning.specs.Size.{Few};
ghost use Rattle.planning.specs.Finish.{closed_of, ended_of, closed_from, filled_from, Finishable, Finishes};
ghost use Rattle.planning.specs.Tables.{grid_in, opened_in};

use crate::close::{Closing, close};
use crate::fill::{Kept, fill, fill_order, keep};
use crate::solve::planning_state;
use crate::tables::{Grid, Opened};
use mode::PlanMode;
use refusal::Refusal;

// The circuits that filling added, the closing figures, and what the plan keeps of filling.
#[derive(Drop)]
pub struct Finishing {
    pub filler: u32,
    pub closing: Closing,
    pub kept: Kept,
}

// The angles and the flows at the peak, from angles of zero; refusal 9 where one of them is not finite.
fn solve_from_zero(
    grid: &Grid,
    level: &[u32],
    circuits: &[u32],
    banks: &[f64],
    opened: &Opened,
    angle: &mut [f64],
    flow: &mut [f64],
) -> Result<(), Refusal>
    requires drawing { Drawing (grid_in grid.now) level.now circuits.now banks.now }
    requires lent { Lent (length level.now) (length grid.now.a.now) (opened_in opened.now) angle.old flow.old }
    ensures { solved_of result
        (edges_for (designs_for (grid_in grid.now) level.now banks.now) circuits.now)
        angle.new flow.new
        ≡ planning_state (peak_for (length level.now) opened.now.grounds.now opened.now.injection.now)
        (designs_for (grid_in grid.now) level.now banks.now)
        circuits.now (zeros (length level.now)) }
{
    angle.fill(0.0);
    planning_state(grid, level, circuits, banks, opened, angle, flow)
}

// After filling: the solve of the filled corridors and the closing figures. Tiers take the place of levels, so they come last.
// What it writes goes in slices of its own, and it reads what the stages before it wrote in theirs: src/tables.rt.
fn close_up(
    mode: PlanMode,
    above: usize,
    grid: &Grid,
    opened: &Opened,
    banks: &[f64],
    upsized: &[u32],
    circuits: &[u32],
    level: &mut [u32],
    flow: &mut [f64],
    rate: &mut [f64],
    angle: &mut [f64],
    added: &mut [f64],
) -> Result<Closing, Refusal>
    requires { Finishable above (grid_in grid.now) level.old (opened_in opened.now) banks.now upsized.now circuits.now flow.old rate.old angle.old added.old }
    ensures { (filler : ℕ) (before order : List ℕ) → closed_of result filler before order circuits.now level.new flow.new rate.new angle.new added.new
        ≡ closed_from mode grid.now.cap.now above opened.now.leader.now grid.now.ladder.now level.old
        (designs_for (grid_in grid.now) level.old banks.now)
        upsized.now (peak_for (length level.old) opened.now.grounds.now opened.now.injection.now) filler before order circuits.now }
{
    solve_from_zero(grid, level, circuits, banks, opened, angle, flow)?;
    Ok(close(
        mode,
        above,
        grid,
        opened.leader,
        banks,
        circuits,
        upsized,
        flow,
        angle,
        level,
        rate,
        added,
    ))
}

// From the flows before filling: the order, the filling, and what comes after it.
// What it writes goes in slices of its own, and it reads what the stages before it wrote in theirs: src/tables.rt.
fn fill_up(
    mode: PlanMode,
    target: u32,
    above: usize,
    grid: &Grid,
    opened: &Opened,
    banks: &[f64],
    upsized: &[u32],
    circuits: &mut [u32],
    level: &mut [u32],
    flow: &mut [f64],
    rate: &mut [f64],
    angle: &mut [f64],
    added: &mut [f64],
) -> Result<Finishing, Refusal>
    requires finishable { Finishable above (grid_in grid.now) level.old (opened_in opened.now) banks.now upsized.now circuits.old flow.old rate.old angle.old added.old }
    requires few { Few circuits.old }
    ensures { ended_of result circuits.new level.new flow.new rate.new angle.new added.new
        ≡ filled_from mode grid.now.cap.now above opened.now.leader.now grid.now.ladder.now level.old
        (designs_for (grid_in grid.now) level.old banks.now)
        upsized.now (peak_for (length level.old) opened.now.grounds.now opened.now.injection.now) target (length grid.now.a.now) circuits.old flow.old }
{
    let order = fill_order(grid, level, banks, circuits, flow);
    let kept = keep(circuits, order);
    let filler = fill(mode, target, grid.cap, &kept.order, circuits);
    let closing = close_up(
        mode, above, grid, opened, banks, upsized, circuits, level, flow, rate, angle, added,
    )?;
    Ok(Finishing {
        filler,
        closing,
        kept,
    })
}

// From what the rounds leave in the slices to the plan, or refusal 9.
// What it writes goes in slices of its own, and it reads what the stages before it wrote in theirs: src/tables.rt.
pub fn finish(
    mode: PlanMode,
    target: u32,
    above: usize,
    grid: &Grid,
    opened: &Opened,
    banks: &[f64],
    upsized: &[u32],
    circuits: &mut [u32],
    level: &mut [u32],
    flow: &mut [f64],
    rate: &mut [f64],
    angle: &mut [f64],
    added: &mut [f64],
) -> Result<Finishing, Refusal>
    requires finishable { Finishable above (grid_in grid.now) level.old (opened_in opened.now) banks.now upsized.now circuits.old flow.old rate.old angle.old added.old }
    requires few { Few circuits.old }
    ensures { Finishes mode target above (grid_in grid.now) (opened_in opened.now) banks.now upsized.now circuits.old level.old
        circuits.new level.new flow.new rate.new angle.new added.new result }
{
    solve_from_zero(grid, level, circuits, banks, opened, angle, flow)?;
    fill_up(
        mode, target, above, grid, opened, banks, upsized, circuits, level, flow, rate, angle,
        added,
    )
}
