// The solve, over the rows of the work slice w: `dc_angles_cg` from its right side, its network and its grounded guess on.
ghost use Rattle.std.specs.Prelude.{◌≡◌, ◌*◌, ◌^◌, ◌<◌, ◌≤◌, length};
ghost use Rattle.loops.specs.Bounds.{most_buses};
ghost use Rattle.loops.specs.Parts.{rows};
ghost use Rattle.root.specs.Root.{root};
ghost use Rattle.angles_defs.specs.Solve.{go, run, max_iterations, solve_from};
ghost use Rattle.angles_defs.specs.Network.{dot};
ghost use Rattle.angles.specs.Slices.{edges_in};
ghost use Rattle.angles.specs.Rows.{row, network_in, state_in, within, solved_in, Stepped, Begun};

use crate::bound::{Bound, bound_of};
use crate::grid::Grid;
use crate::network::apply;
use crate::steps::{
    D, GROUNDED, Q, R, X, Z, angle_step, direction_step, precondition, residual, residual_step,
    square_or_far,
};
use crate::vectors::{clear, copy, dot};
use angles_defs::{Ended, Solution};
use std::ops::ControlFlow;

// The share of the right side's norm at which the residual's settles the solve.
const SETTLED_SHARE: f64 = 1e-11;

// What one iteration hands to the next: r · z, the place of r to look at first, and how often x was moved.
#[derive(Clone, Copy)]
struct Carried {
    rz: f64,
    look: usize,
    steps: usize,
}

// The norm of a residual of square rr, where it is within the bound.
fn judge(rr: f64, bound: Bound) -> Option<f64>
    ensures { result ≡ within (root rr) bound.bound }
{
    if bound.surely_beyond(rr) {
        return None;
    }
    let norm = root::sqrt(rr);
    if norm <= bound.bound {
        Some(norm)
    } else {
        None
    }
}

// The norm of the residual, where it is within the bound, and the place of r to look at first after the next step.
#[derive(Clone, Copy)]
struct Judged {
    norm: Option<f64>,
    look: usize,
}

// One place that reaches the limit tells that the norm is above the bound: then r · r is not worked out, of which small products are slow.
fn judge_residual(w: &[f64], n: usize, bound: Bound, look: usize) -> Judged
    requires { length w.now ≡ 8 * n }
    ensures { result.norm ≡ within (root (dot n (row (rows 8 n w.now) 4) (row (rows 8 n w.now) 4))) bound.bound }
{
    match square_or_far(w, n, bound.limit, look) {
        ControlFlow::Break(place) => Judged {
            norm: None,
            look: place,
        },
        ControlFlow::Continue(rr) => Judged {
            norm: judge(rr, bound),
            look: 0,
        },
    }
}

// One iteration: what it hands to the next, or the solution where it ends.
fn step(
    grid: &Grid,
    w: &mut [f64],
    bound: Bound,
    carried: Carried,
) -> ControlFlow<Solution, Carried>
    requires { (length w.old ≡ 8 * grid.now.n) × (carried.steps < 2 ^ 32) }
    ensures { Stepped grid.now.n (edges_in grid.now) bound.bound (rows 8 grid.now.n w.old) carried (rows 8 grid.now.n w.new) result }
{
    let n = grid.n;
    let rz = carried.rz;
    let steps = carried.steps;
    let dq = apply(grid, w, GROUNDED * n, D * n, Q * n);
    if dq <= 0.0 {
        return ControlFlow::Break(Solution {
            steps,
            ended: Ended::NoDescent(dq),
        });
    }
    let alpha = rz / dq;
    let next_rz = residual_step(w, n, alpha);
    let judged = judge_residual(w, n, bound, carried.look);
    if let Some(norm) = judged.norm {
        angle_step(w, n, alpha);
        return ControlFlow::Break(Solution {
            steps: steps + 1,
            ended: Ended::Settled(norm),
        });
    }
    direction_step(w, n, alpha, next_rz / rz);
    ControlFlow::Continue(Carried {
        rz: next_rz,
        look: judged.look,
        steps: steps + 1,
    })
}

// The most iterations: so many for each bus, and so many more.
const STEPS_PER_BUS: usize = 50;

const MORE_STEPS: usize = 100;

fn iterate(grid: &Grid, w: &mut [f64], bound: Bound, first: Carried) -> Solution
    requires { (length w.old ≡ 8 * grid.now.n) × (grid.now.n ≤ most_buses) × (first.steps ≡ 0) }
    ensures { solved_in (rows 8 grid.now.n w.new) result
        ≡ run (network_in grid.now.n (edges_in grid.now) (rows 8 grid.now.n w.old)) bound.bound (max_iterations grid.now.n)
        (go (state_in grid.now.n (rows 8 grid.now.n w.old) first)) }
{
    let n = grid.n;
    let mut carried = first;
    for _turn in 0..STEPS_PER_BUS * n + MORE_STEPS {
        match step(grid, w, bound, carried) {
            ControlFlow::Break(solution) => return solution,
            ControlFlow::Continue(next) => carried = next,
        }
    }
    Solution {
        steps: carried.steps,
        ended: Ended::StepsSpent(root::sqrt(dot(w, n, R * n, R * n))),
    }
}

// The first residual and direction.
fn begin(grid: &Grid, w: &mut [f64], bound: Bound) -> ControlFlow<Solution, Carried>
    requires { length w.old ≡ 8 * grid.now.n }
    ensures { Begun grid.now.n (edges_in grid.now) bound.bound (rows 8 grid.now.n w.old) (rows 8 grid.now.n w.new) result }
{
    let n = grid.n;
    apply(grid, w, GROUNDED * n, X * n, R * n);
    let rr = residual(w, n);
    if let Some(norm) = judge(rr, bound) {
        return ControlFlow::Break(Solution {
            steps: 0,
            ended: Ended::Settled(norm),
        });
    }
    let rz = precondition(w, n);
    copy(w, n, Z * n, D * n);
    ControlFlow::Continue(Carried {
        rz,
        look: 0,
        steps: 0,
    })
}

// The solve: zeros where the norm of the right side comes to zero, whatever the guess.
pub fn solve(grid: &Grid, w: &mut [f64]) -> Solution
    requires { (length w.old ≡ 8 * grid.now.n) × (grid.now.n ≤ most_buses) }
    ensures { solved_in (rows 8 grid.now.n w.new) result
        ≡ solve_from (network_in grid.now.n (edges_in grid.now) (rows 8 grid.now.n w.old))
        (row (rows 8 grid.now.n w.old) 0) (row (rows 8 grid.now.n w.old) 3) }
{
    let n = grid.n;
    let norm0 = root::sqrt(dot(w, n, 0, 0));
    if norm0 == 0.0 {
        clear(w, X * n, n);
        return Solution {
            steps: 0,
            ended: Ended::Settled(0.0),
        };
    }
    let bound = bound_of(SETTLED_SHARE * norm0);
    match begin(grid, w, bound) {
        ControlFlow::Break(solution) => solution,
        ControlFlow::Continue(first) => iterate(grid, w, bound, first),
    }
}
