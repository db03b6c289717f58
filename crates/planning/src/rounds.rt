// The rounds, "2. Capacity and stiffening" of `plan_corridors`: each solves, sizes every corridor, and where that changed nothing
// stiffens the components whose angles are spread too wide.
ghost use Rattle.std.specs.Prelude.{◌≡◌, length};
ghost use Rattle.planning.specs.Design.{Banks};
ghost use Rattle.planning.specs.Redesign.{RedesignFits};
ghost use Rattle.planning.specs.Rounds.{Redrawn, RoundsFit, RoundsRun};
ghost use Rattle.planning.specs.Tables.{grid_in, supply_in, opened_in};

use crate::budgets::{first_tally, limits_of};
use crate::policy::promotes;
use crate::raise_marks::raise_buses;
use crate::redesign::redesign;
use crate::size::{Tally, size_corridor};
use crate::solve::{draw_edges, peak_state};
use crate::stiffen::stiffen_led;
use crate::tables::{Grid, Opened, Supply};
use mode::PlanMode;
use refusal::Refusal;

// How far the rounds have come.
#[derive(Clone, Copy)]
pub struct Progress {
    // Rounds run.
    pub rounds: u32,
    // Moves of buses to a higher level.
    pub promoted: u32,
    // Circuits added by sizing and by stiffening.
    pub capacity: u32,
    pub stiffening: u32,
    pub converged: bool,
    // Whether the last round led to no other, or none was to run.
    pub rested: bool,
}

// Raises the marked buses, and designs every corridor anew where one moved; how many did.
pub fn raise_marked(
    grid: &Grid,
    supply: &Supply,
    floors: &[f64],
    marks: &[u32],
    level: &mut [u32],
    banks: &mut [f64],
) -> u32
    requires redesign_fits { RedesignFits (grid_in grid.now) level.old (supply_in supply.now) floors.now banks.old }
    requires marks_len { (length marks.now ≡ length level.old) × Banks banks.old }
    ensures { Redrawn (grid_in grid.now) level.old (supply_in supply.now) marks.now floors.now banks.old
        level.new banks.new result }
{
    let moved = raise_buses(marks, level);
    if moved > 0 {
        redesign(grid, level, supply, floors, banks);
    }
    moved
}

// Runs so many rounds at most, after those that `start` tells of. Each is solved from the angles of the one before.
// The project's scope asks for a labelled loop that is gone on with, and left with an answer, by its name; a `for` has no answer, so
// that the rounds left are counted by hand.
// What it writes goes in slices of its own: src/tables.rt.
pub fn size_rounds(
    mode: PlanMode,
    above: usize,
    budget: u32,
    start: Progress,
    grid: &Grid,
    supply: &Supply,
    opened: &Opened,
    circuits: &mut [u32],
    banks: &mut [f64],
    floors: &mut [f64],
    upsized: &mut [u32],
    level: &mut [u32],
    marks: &mut [u32],
    angle: &mut [f64],
    flow: &mut [f64],
) -> Result<Progress, Refusal>
    requires { RoundsFit above budget start (grid_in grid.now) level.old (supply_in supply.now) (opened_in opened.now) circuits.old banks.old floors.old upsized.old marks.old angle.old flow.old }
    ensures { RoundsRun mode above budget start (grid_in grid.now) level.old (supply_in supply.now) (opened_in opened.now)
        circuits.old banks.old floors.old upsized.old angle.old
        level.new circuits.new banks.new floors.new upsized.new angle.new result }
{
    let mut p = start;
    let mut left = budget;
    'rounds: loop {
        if left == 0 {
            break 'rounds Ok(p);
        }
        left -= 1;
        p.rounds += 1;
        p.converged = false;
        p.rested = false;
        let e = draw_edges(grid, level, circuits, banks);
        // No `?` here and below: the loop is left with its answer by name, as document 01 asks.
        if let Err(f) = peak_state(&e, opened, angle, flow) {
            break 'rounds Err(f);
        }
        marks.fill(0);
        let mut t = Tally {
            capacity: p.capacity,
            added: false,
            capped: false,
        };
        for k in 0..grid.a.len() {
            t = size_corridor(
                mode, grid, level, flow, k, circuits, banks, floors, upsized, marks, t,
            );
            // Only the last corridor can say what follows: all are sized with the flows of the round's start and raised together.
            if k + 1 == grid.a.len() {
                let moved = raise_marked(grid, supply, floors, marks, level, banks);
                if (moved > 0) | t.added {
                    p.capacity = t.capacity;
                    p.promoted += moved;
                    continue 'rounds;
                }
                if !promotes(mode) {
                    p.capacity = t.capacity;
                    p.converged = !t.capped;
                    p.rested = true;
                    break 'rounds Ok(p);
                }
            }
        }
        let g = limits_of(above, level);
        let mut s = first_tally(g, level, circuits, p.stiffening, marks);
        for i in 0..opened.leader.len() {
            match stiffen_led(
                i, p.rounds, g, grid, level, opened, &e, angle, circuits, banks, floors, upsized,
                marks, s,
            ) {
                Err(f) => break 'rounds Err(f),
                Ok(u) => s = u,
            }
            // Only the last component can say what follows: the raises of all are made together.
            if i + 1 == opened.leader.len() {
                let moved = raise_marked(grid, supply, floors, marks, level, banks);
                p.capacity = t.capacity;
                p.stiffening = s.stiffening;
                p.promoted += moved;
                if (moved > 0) | s.stiffened {
                    continue 'rounds;
                }
                p.converged = !s.wide & !t.capped;
                p.rested = true;
                break 'rounds Ok(p);
            }
        }
    }
}
