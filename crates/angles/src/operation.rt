// The operation on a request that is not refused: the rows are set up, solved and handed out. That the work has eight places for each bus is asked here and in
// solve.rt as it is in steps.rt, which says why no struct has it.
ghost use Rattle.std.specs.Prelude.{◌≡◌, ◌*◌, ◌≤◌, length};
ghost use Rattle.loops.specs.Bounds.{most_buses};
ghost use Rattle.loops.specs.Parts.{rows};
ghost use Rattle.angles_defs.specs.Solve as Solve;
ghost use Rattle.angles_defs.specs.Operation.{outcome, finish};
ghost use Rattle.angles.specs.Slices.{edges_in};
ghost use Rattle.angles.specs.Rows.{row, start_rows, HandedOut};

use crate::grid::Grid;
use crate::network::{add_weights, keep, mark_grounds};
use crate::solve::solve;
use crate::steps::{DIAG, GROUNDED, X};
use crate::vectors::{clear, not_finite};
use angles_defs::Solution;
use refusal::Refusal;

// The rows that a solve begins with: the grounded right side, the marks of the grounds, the diagonal and the grounded guess.
fn set_up(grid: &Grid, injection: &[f64], guess: &[f64], w: &mut [f64])
    requires { (length w.old ≡ 8 * grid.now.n) × (length injection.now ≡ grid.now.n) × (length guess.now ≡ grid.now.n) }
    ensures { rows 8 grid.now.n w.new
        ≡ start_rows grid.now.n (edges_in grid.now) grid.now.grounds.now injection.now guess.now }
{
    let n = grid.n;
    w.fill(0.0);
    mark_grounds(grid, w, GROUNDED * n);
    add_weights(grid, w, DIAG * n);
    keep(injection, w, n, GROUNDED * n, 0);
    keep(guess, w, n, GROUNDED * n, X * n);
}

// Hands the angles out where all are finite, zeros where one is not, and clears the work. Answers the first bus whose angle is
// not finite.
fn hand_out(res: &mut [f64], w: &mut [f64], n: usize) -> Option<usize>
    requires { (length w.old ≡ 8 * n) × (length res.old ≡ n) }
    ensures { HandedOut n (row (rows 8 n w.old) 3) result res.new w.new }
{
    if let Some(bus) = not_finite(w, n, X * n) {
        res.fill(0.0);
        w.fill(0.0);
        return Some(bus);
    }
    // Not by `copy_from_slice`, with which the archive for C would need `memmove` from outside.
    let angles = &w[X * n..X * n + n];
    loops::fill(res, |i| angles[i]);
    w.fill(0.0);
    None
}

pub fn answer(
    grid: &Grid,
    injection: &[f64],
    guess: &[f64],
    res: &mut [f64],
    work: &mut [f64],
) -> Result<Solution, Refusal>
    requires { (length work.old ≡ 8 * grid.now.n) × (length res.old ≡ grid.now.n) × (length injection.now ≡ grid.now.n) × (length guess.now ≡ grid.now.n) × (grid.now.n ≤ most_buses) }
    ensures { outcome result res.new work.new
        ≡ finish grid.now.n (Solve.solve grid.now.n (edges_in grid.now) grid.now.grounds.now injection.now guess.now) }
{
    set_up(grid, injection, guess, work);
    let solution = solve(grid, work);
    match hand_out(res, work, grid.n) {
        Some(bus) => Err(Refusal::NotFinite(bus)),
        None => Ok(solution),
    }
}
