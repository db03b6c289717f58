// Definitions and laws of loops, of parts of a slice and of figures, shared by the other crates; and the few functions that all of them call.
#![tactic(auto)]

mod bounds;
mod figures;

ghost use Rattle.std.specs.Prelude.{◌≡◌, ◌<◌, ℕ, Bool, cond, ltb, length};
ghost use Rattle.loops.specs.Loops.{fault, tab};

pub use bounds::{
    MOST_BUSES, MOST_CAP, MOST_CORRIDORS, MOST_GENERATORS, MOST_INITIAL, MOST_LEVELS, MOST_TARGET,
};
pub use figures::{clamp, greater, infinity, is_finite, lesser, magnitude, sum};

// The first index below `count` at which a test fails.
// Not by `find`: its closure needs clauses of its own, which say of `sound` what stands here once.
pub fn first_fault<F: Fn(usize) -> bool>(count: usize, sound: F) -> Option<usize>
    requires { (i : ℕ) → i < count → F.pre sound i }
    ensures { (ok : ℕ → Bool) → ((i : ℕ) (r : Bool) → i < count → F.post sound i r → r ≡ ok i) → result ≡ fault ok count }
{
    for i in 0..count {
        if !sound(i) {
            return Some(i);
        }
    }
    None
}

// Fills a slice: each place with what a function gives at its index.
pub fn fill<T: Copy, F: Fn(usize) -> T>(out: &mut [T], given: F)
    requires { (i : ℕ) → i < length out.old → F.pre given i }
    ensures { (f : ℕ → T) → ((i : ℕ) (r : T) → i < length out.old → F.post given i r → r ≡ f i) → out.new ≡ tab (length out.old) f }
{
    for (i, x) in out.iter_mut().enumerate() {
        *x = given(i);
    }
}

// The same of the first `count` places, with one value in the rest.
pub fn fill_first<T: Copy, F: Fn(usize) -> T>(out: &mut [T], count: usize, rest: T, given: F)
    requires { (i : ℕ) → i < count → F.pre given i }
    ensures { (f : ℕ → T) → ((i : ℕ) (r : T) → i < count → F.post given i r → r ≡ f i) → out.new ≡ tab (length out.old) (λ i. cond (ltb i count) (f i) rest) }
{
    for (i, x) in out.iter_mut().enumerate() {
        *x = if i < count { given(i) } else { rest };
    }
}
