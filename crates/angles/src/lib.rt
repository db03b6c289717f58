// Bus angles of a direct-current power flow by Jacobi-preconditioned conjugate gradients (document 01, module 5;
// planning.rs, `dc_angles_cg`).
#![tactic(auto)]

ghost use Rattle.std.specs.Prelude.{◌≡◌};
ghost use Rattle.angles_defs.specs.Operation.{request_of, outcome, dc_angles};

use crate::check::Request;
use crate::grid::Grid;
use angles_defs::Solution;
use refusal::Refusal;

mod bound;
mod check;
mod grid;
mod network;
mod operation;
mod solve;
mod steps;
mod vectors;

// The angles at which the flow over each edge, its weight times the difference between its ends, carries the injections to the
// grounds. Reads n buses, m edges and k grounds, and starts from a guess for each bus (no guess is a guess of zeros). Writes an
// angle for each bus to `result`, and leaves the 8 × n places of `work` at zero.
// Each slice is a parameter of its own, as the project's scope lists them.
#[tactic(auto, using(crate::proofs::Ends::passed, crate::proofs::Ends::angles_refused, crate::proofs::Ends::angles_answered))]
pub fn dc_angles(
    n: usize,
    m: usize,
    k: usize,
    from: &[u32],
    to: &[u32],
    weight: &[f64],
    injection: &[f64],
    grounds: &[u32],
    guess: &[f64],
    res: &mut [f64],
    work: &mut [f64],
) -> Result<Solution, Refusal>
    ensures { outcome result res.new work.new
        ≡ dc_angles (request_of n m k from.now to.now weight.now injection.now grounds.now guess.now)
        res.old work.old }
{
    let request = Request {
        n,
        m,
        k,
        from,
        to,
        weight,
        injection,
        grounds,
        guess,
    };
    request.check(res.len(), work.len())?;
    let grid = Grid {
        n,
        from,
        to,
        weight,
        grounds,
    };
    operation::answer(&grid, injection, guess, res, work)
}
