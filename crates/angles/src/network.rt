// The network of a solve, and the map `apply`, over rows of the work slice w.
ghost use Rattle.std.specs.Prelude.{◌≡◌, ◌+◌, ◌<◌, ◌≤◌, length};
ghost use Rattle.loops.specs.Figures.{at, minus, times};
ghost use Rattle.loops.specs.Loops.{iter};
ghost use Rattle.loops.specs.Parts.{part, put, Apart};
ghost use Rattle.angles_defs.specs.Network as Network;
ghost use Rattle.angles_defs.specs.Network.{weigh, moved, kept_at, dot};
ghost use Rattle.angles.specs.Slices.{edges_in, Wrote, weighed_in};

use crate::grid::Grid;

// Sets a one at each ground of the row o.
#[tactic(auto, using(loops::proofs::Puts::turned_end))]
pub fn mark_grounds(grid: &Grid, w: &mut [f64], o: usize)
    requires { o + grid.now.n ≤ length w.old }
    ensures { w.new ≡ put w.old o
        (iter (Network.ground grid.now.grounds.now) (length grid.now.grounds.now) 0 (part o grid.now.n w.old)) }
{
    for bus in grid.grounds {
        w[o + *bus as usize] = 1.0;
    }
}

// Adds a weight at a and b of the row y.
fn add_weight(w: &mut [f64], a: usize, b: usize, weight: f64, y: usize)
    requires { (y + a < length w.old) × (y + b < length w.old) }
    ensures { w.new ≡ weighed_in w.old a b weight y }
{
    w[y + a] += weight;
    w[y + b] += weight;
}

// Adds the weight of each edge at both its ends to the row y.
pub fn add_weights(grid: &Grid, w: &mut [f64], y: usize)
    requires { y + grid.now.n ≤ length w.old }
    ensures { w.new ≡ put w.old y
        (iter (weigh (edges_in grid.now)) (length grid.now.from.now) 0 (part y grid.now.n w.old)) }
{
    for ((from, to), weight) in grid.from.iter().zip(grid.to).zip(grid.weight) {
        add_weight(w, *from as usize, *to as usize, *weight, y);
    }
}

// v, or zero at a grounded bus.
fn kept(grounded: f64, v: f64) -> f64
    ensures { result ≡ kept_at grounded v }
{
    if grounded != 0.0 { 0.0 } else { v }
}

// y = s, or zero at a grounded bus.
#[tactic(auto, using(loops::proofs::Parts::tab_start), unfolding(angles_defs::specs::Network::kept))]
pub fn keep(s: &[f64], w: &mut [f64], n: usize, grounded: usize, y: usize)
    requires { (grounded + n ≤ length w.old) × (y + n ≤ length w.old) × Apart grounded y n × (length s.now ≡ n) }
    ensures { w.new ≡ put w.old y (Network.kept n (part grounded n w.old) s.now) }
{
    for i in 0..n {
        w[y + i] = kept(w[grounded + i], s[i]);
    }
}

// Moves what an edge between a and b carries at x from b to a of y.
fn carry(x: &[f64], y: &mut [f64], a: usize, b: usize, weight: f64)
    requires { (a < length x.now) × (b < length x.now) × (a < length y.old) × (b < length y.old) }
    ensures { y.new ≡ moved y.old a b (times weight (minus (at x.now a) (at x.now b))) }
{
    let d = weight * (x[a] - x[b]);
    y[a] += d;
    y[b] -= d;
}

// Each edge moves what it carries at x.
fn scatter(grid: &Grid, x: &[f64], y: &mut [f64])
    requires { (length x.now ≡ grid.now.n) × (length y.old ≡ grid.now.n) }
    ensures { y.new ≡ iter (Network.carry (edges_in grid.now) x.now) (length grid.now.from.now) 0 y.old }
{
    for ((from, to), weight) in grid.from.iter().zip(grid.to).zip(grid.weight) {
        carry(x, y, *from as usize, *to as usize, *weight);
    }
}

// Zeroes y at each grounded bus, and answers x · y, in one pass.
#[tactic(auto, using(loops::proofs::Tab::fill_start, loops::proofs::Totals::sum_start))]
fn ground(grounded: &[f64], x: &[f64], y: &mut [f64]) -> f64
    requires { (length grounded.now ≡ length y.old) × (length x.now ≡ length y.old) }
    ensures left { y.new ≡ Network.kept (length y.old) grounded.now y.old }
    ensures answered { result ≡ dot (length y.old) x.now (Network.kept (length y.old) grounded.now y.old) }
{
    let mut sum = 0.0;
    for i in 0..y.len() {
        let yi = kept(grounded[i], y[i]);
        y[i] = yi;
        sum += x[i] * yi;
    }
    sum
}

// y = L x, the grounded Laplacian's product; answers x · y. The row y stands behind the two that are read.
pub fn apply(grid: &Grid, w: &mut [f64], grounded: usize, x: usize, y: usize) -> f64
    requires { (grounded + grid.now.n ≤ y) × (x + grid.now.n ≤ y) × (y + grid.now.n ≤ length w.old) }
    ensures { Wrote w.old w.new y
        (Network.kept grid.now.n (part grounded grid.now.n w.old) (Network.scatter grid.now.n (edges_in grid.now) (part x grid.now.n w.old)))
        (dot grid.now.n (part x grid.now.n w.old)
        (Network.kept grid.now.n (part grounded grid.now.n w.old) (Network.scatter grid.now.n (edges_in grid.now) (part x grid.now.n w.old)))) result }
{
    let n = grid.n;
    let (before, rest) = w.split_at_mut(y);
    let read = &before[x..x + n];
    let row = &mut rest[..n];
    row.fill(0.0);
    scatter(grid, read, row);
    ground(&before[grounded..grounded + n], read, row)
}
