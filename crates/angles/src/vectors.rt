// Vectors as rows of the work slice w: a row is the n places from an offset on.
ghost use Rattle.std.specs.Prelude.{◌≡◌, ◌+◌, ◌≤◌, length};
ghost use Rattle.loops.specs.Loops.{fault};
ghost use Rattle.loops.specs.Parts.{part, put};
ghost use Rattle.angles_defs.specs.Network as Network;
ghost use Rattle.angles_defs.specs.Network.{zeros};
ghost use Rattle.angles_defs.specs.Operation.{finite_at};

// Zeroes the n places from o.
#[tactic(auto, using(crate::proofs::Parts::put_back, crate::proofs::Parts::lent_length))]
pub fn clear(w: &mut [f64], o: usize, n: usize)
    requires { o + n ≤ length w.old }
    ensures { w.new ≡ put w.old o (zeros n) }
{
    w[o..o + n].fill(0.0);
}

// u · v, summed from the left.
#[tactic(auto, using(loops::proofs::Totals::sum_start, loops::proofs::Totals::sum_turn, crate::proofs::Turns::product_of, loops::proofs::Parts::get_part))]
pub fn dot(w: &[f64], n: usize, u: usize, v: usize) -> f64
    requires { (u + n ≤ length w.now) × (v + n ≤ length w.now) }
    ensures { result ≡ Network.dot n (part u n w.now) (part v n w.now) }
{
    let mut sum = 0.0;
    for i in 0..n {
        sum += w[u + i] * w[v + i];
    }
    sum
}

// d = z, where z stands before d.
#[tactic(auto, using(crate::proofs::Parts::copied))]
pub fn copy(w: &mut [f64], n: usize, z: usize, d: usize)
    requires { (z + n ≤ d) × (d + n ≤ length w.old) }
    ensures { w.new ≡ put w.old d (part z n w.old) }
{
    w.copy_within(z..z + n, d);
}

// The first place of x that is not finite.
#[tactic(auto, using(loops::proofs::Parts::get_part))]
pub fn not_finite(w: &[f64], n: usize, x: usize) -> Option<usize>
    requires { x + n ≤ length w.now }
    ensures { result ≡ fault (finite_at (part x n w.now)) n }
{
    loops::first_fault(n, |i| loops::is_finite(w[x + i]))
}
