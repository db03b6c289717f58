// The raises before the rounds, "1. Voltage class by power and distance" of `plan_corridors`: a corridor whose flow is more than
// two of its lines carry is raised, with the circuits at their lower bounds.
ghost use Rattle.std.specs.Prelude.{◌≡◌, ◌<◌, length};
ghost use Rattle.plan_defs.specs.Raise.{too_heavy, heavy_at, heavy_marks};
ghost use Rattle.planning.specs.Redesign.{RedesignFits};
ghost use Rattle.planning.specs.RaisePasses.{heavy_for, raised_of, Markable, HeavyRaised, Raisable, Passed, RaisesDone};
ghost use Rattle.planning.specs.Tables.{grid_in, supply_in, opened_in};

use crate::design::circuit;
use crate::policy::promotes;
use crate::raise_marks::mark_raise_to;
use crate::rounds::raise_marked;
use crate::size::{PLANNING_UTILISATION, UPGRADE_CIRCUITS};
use crate::solve::planning_state;
use crate::tables::{Grid, Opened, Supply};
use loops::magnitude;
use mode::PlanMode;
use plan_defs::CircuitDesign;
use refusal::Refusal;

// ---- marks
fn too_heavy(d: CircuitDesign, flow: f64) -> bool
    ensures { result ≡ too_heavy d flow }
{
    let line_capacity = PLANNING_UTILISATION * d.line_rate * d.rate_spread;
    magnitude(flow) > UPGRADE_CIRCUITS as f64 * line_capacity
}

fn mark_heavy(grid: &Grid, level: &[u32], banks: &[f64], flow: &[f64], k: usize, marks: &mut [u32])
    requires { Markable (grid_in grid.now) level.now banks.now flow.now marks.old × (k < length grid.now.a.now) }
    ensures { marks.new
        ≡ heavy_at (heavy_for (length level.now) (grid_in grid.now))
        (raised_of (heavy_for (length level.now) (grid_in grid.now))
        level.now banks.now 0) flow.now k marks.old }
{
    let d = circuit(grid, level, k, banks[k]);
    if too_heavy(d, flow[k]) {
        mark_raise_to(level, grid, k, 0, marks);
    }
}

fn heavy_marks(grid: &Grid, level: &[u32], banks: &[f64], flow: &[f64], marks: &mut [u32])
    requires { Markable (grid_in grid.now) level.now banks.now flow.now marks.old }
    ensures { marks.new
        ≡ heavy_marks (heavy_for (length level.now) (grid_in grid.now))
        (raised_of (heavy_for (length level.now) (grid_in grid.now))
        level.now banks.now 0) flow.now }
{
    marks.fill(0);
    for k in 0..grid.a.len() {
        mark_heavy(grid, level, banks, flow, k, marks);
    }
}

// ---- passes
// Raises the buses of corridors that are too heavy, designs anew where one moved, and answers how many did.
fn raise_heavy(
    grid: &Grid,
    supply: &Supply,
    flow: &[f64],
    floors: &[f64],
    banks: &mut [f64],
    level: &mut [u32],
    marks: &mut [u32],
) -> u32
    requires markable { Markable (grid_in grid.now) level.old banks.old flow.now marks.old }
    requires redesign_fits { RedesignFits (grid_in grid.now) level.old (supply_in supply.now) floors.now banks.old }
    ensures { HeavyRaised (grid_in grid.now) level.old
        (supply_in supply.now) flow.now floors.now banks.old
        level.new banks.new result marks.new }
{
    heavy_marks(grid, level, banks, flow, marks);
    raise_marked(grid, supply, floors, marks, level, banks)
}

// One pass, solved from zero.
fn pass(
    grid: &Grid,
    supply: &Supply,
    opened: &Opened,
    circuits: &[u32],
    floors: &[f64],
    banks: &mut [f64],
    level: &mut [u32],
    marks: &mut [u32],
    angle: &mut [f64],
    flow: &mut [f64],
) -> Result<u32, Refusal>
    requires { Raisable (grid_in grid.now) level.old (supply_in supply.now) (opened_in opened.now)
        circuits.now floors.now banks.old marks.old angle.old flow.old }
    ensures { Passed (grid_in grid.now) level.old
        (supply_in supply.now) (opened_in opened.now) circuits.now banks.old
        level.new banks.new result }
{
    angle.fill(0.0);
    planning_state(grid, level, circuits, banks, opened, angle, flow)?;
    let moved = raise_heavy(grid, supply, flow, floors, banks, level, marks);
    Ok(moved)
}

// One pass less than there are levels, at most; none where the mode does not promote.
// What it writes goes in slices of its own: src/tables.rt.
pub fn raise_in_passes(
    mode: PlanMode,
    grid: &Grid,
    supply: &Supply,
    opened: &Opened,
    circuits: &[u32],
    floors: &[f64],
    banks: &mut [f64],
    level: &mut [u32],
    marks: &mut [u32],
    angle: &mut [f64],
    flow: &mut [f64],
) -> Result<u32, Refusal>
    requires { Raisable (grid_in grid.now) level.old (supply_in supply.now) (opened_in opened.now)
        circuits.now floors.now banks.old marks.old angle.old flow.old }
    ensures { RaisesDone mode (grid_in grid.now) level.old
        (supply_in supply.now) (opened_in opened.now) circuits.now banks.old
        level.new banks.new result }
{
    if !promotes(mode) {
        return Ok(0);
    }
    let mut promoted = 0;
    for _turn in 1..grid.ladder.len() {
        let moved = pass(
            grid, supply, opened, circuits, floors, banks, level, marks, angle, flow,
        )?;
        if moved == 0 {
            break;
        }
        promoted += moved;
    }
    Ok(promoted)
}
