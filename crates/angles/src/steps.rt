// What an iteration does to the rows of the work slice w, each in one pass. Each call asks for the slice's length: of a struct of the slice
// and n whose ghost field is that length, tried, each method had to promise that it still holds the same slice and the same n.
ghost use Rattle.std.specs.Prelude.{◌≡◌, ◌*◌, length};
ghost use Rattle.loops.specs.Parts.{rows};
ghost use Rattle.angles_defs.specs.Network.{share_at};
ghost use Rattle.angles.specs.Rows.{row, Preconditioned, Residual, ResidualStep, AngleStep, DirectionStep, Told};

use std::ops::ControlFlow;

// The rows, by number. The right side is row 0.
pub const GROUNDED: usize = 1;

pub const DIAG: usize = 2;

pub const X: usize = 3;

pub const R: usize = 4;

pub const Z: usize = 5;

pub const D: usize = 6;

pub const Q: usize = 7;

// r over the diagonal, or zero at a grounded bus and where the diagonal is not above zero.
fn share(grounded: f64, diag: f64, r: f64) -> f64
    ensures { result ≡ share_at grounded diag r }
{
    if grounded != 0.0 {
        return 0.0;
    }
    if diag <= 0.0 { 0.0 } else { r / diag }
}

// z = M r; answers r · z.
#[tactic(auto, using(loops::proofs::Parts::tab_start, loops::proofs::Totals::sum_start))]
pub fn precondition(w: &mut [f64], n: usize) -> f64
    requires { length w.old ≡ 8 * n }
    ensures { Preconditioned n (rows 8 n w.old) (rows 8 n w.new) result }
{
    let grounded = GROUNDED * n;
    let diag = DIAG * n;
    let r = R * n;
    let z = Z * n;
    let mut rz = 0.0;
    for i in 0..n {
        let ri = w[r + i];
        let zi = share(w[grounded + i], w[diag + i], ri);
        w[z + i] = zi;
        rz += ri * zi;
    }
    rz
}

// r = b - r; answers r · r.
#[tactic(auto, using(loops::proofs::Parts::tab_start, loops::proofs::Totals::sum_start))]
pub fn residual(w: &mut [f64], n: usize) -> f64
    requires { length w.old ≡ 8 * n }
    ensures { Residual n (rows 8 n w.old) (rows 8 n w.new) result }
{
    let r = R * n;
    let mut rr = 0.0;
    for i in 0..n {
        let ri = w[i] - w[r + i];
        w[r + i] = ri;
        rr += ri * ri;
    }
    rr
}

// r -= alpha q, z = M r; answers r · z.
#[tactic(auto, using(loops::proofs::Parts::tab_start, loops::proofs::Totals::sum_start))]
pub fn residual_step(w: &mut [f64], n: usize, alpha: f64) -> f64
    requires { length w.old ≡ 8 * n }
    ensures { ResidualStep n alpha (rows 8 n w.old) (rows 8 n w.new) result }
{
    let grounded = GROUNDED * n;
    let diag = DIAG * n;
    let r = R * n;
    let z = Z * n;
    let q = Q * n;
    let mut rz = 0.0;
    for i in 0..n {
        let ri = w[r + i] - alpha * w[q + i];
        let zi = share(w[grounded + i], w[diag + i], ri);
        w[r + i] = ri;
        w[z + i] = zi;
        rz += ri * zi;
    }
    rz
}

// x += alpha d
#[tactic(auto, using(loops::proofs::Parts::tab_start, crate::proofs::Rows::angle_step_rows), unfolding(angles_defs::specs::Network::along))]
pub fn angle_step(w: &mut [f64], n: usize, alpha: f64)
    requires { length w.old ≡ 8 * n }
    ensures { AngleStep n alpha (rows 8 n w.old) (rows 8 n w.new) }
{
    let x = X * n;
    let d = D * n;
    for i in 0..n {
        w[x + i] += alpha * w[d + i];
    }
}

// x += alpha d, d = z + beta d
#[tactic(auto, using(loops::proofs::Parts::tab_start))]
pub fn direction_step(w: &mut [f64], n: usize, alpha: f64, beta: f64)
    requires { length w.old ≡ 8 * n }
    ensures { DirectionStep n alpha beta (rows 8 n w.old) (rows 8 n w.new) }
{
    let x = X * n;
    let z = Z * n;
    let d = D * n;
    for i in 0..n {
        let di = w[d + i];
        let xi = w[x + i] + alpha * di;
        let next = w[z + i] + beta * di;
        w[x + i] = xi;
        w[d + i] = next;
    }
}

// r · r; or a place of r whose size reaches a limit, with which r · r need not be worked out. The place `look` is looked at first.
pub fn square_or_far(w: &[f64], n: usize, limit: f64, look: usize) -> ControlFlow<usize, f64>
    requires { length w.now ≡ 8 * n }
    ensures { Told n limit (row (rows 8 n w.now) 4) result }
{
    let r = R * n;
    if look < n && limit <= loops::magnitude(w[r + look]) {
        return ControlFlow::Break(look);
    }
    let mut rr = 0.0;
    for i in 0..n {
        let ri = w[r + i];
        if limit <= loops::magnitude(ri) {
            return ControlFlow::Break(i);
        }
        rr += ri * ri;
    }
    ControlFlow::Continue(rr)
}
