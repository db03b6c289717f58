// The impedance spread that a class of 345 kV or above keeps: the spread to the power 0.6 (EHV_SPREAD_SHARE of branches.rs).
ghost use Rattle.std.specs.Prelude.{◌≡◌, ◌+◌, ◌*◌, ◌/◌, ◌^◌, ◌<◌, ◌≤◌, true};
ghost use Rattle.line_defs.specs.Spread.{fifth_root, kept_spread};
ghost use Rattle.line_defs.specs.Bounds.{Spread};

use crate::grid::{on_grid, steps_of_spread};
use crate::limbs::{at_most, power};
use crate::wide::high;
use std::simd::prelude::*;

// More than any root here: 4 steps of 2^-32 each.
const MOST: u64 = 0x4_0000_0000;

// 3, which is above any root here as well.
const ABOVE: u64 = 0x3_0000_0000;

// A spread of 1 in steps of 2^-54, and its root in steps of 2^-32.
const ONE_SPREAD: u64 = 0x40_0000_0000_0000;

const ONE_ROOT: u64 = 0x1_0000_0000;

// The binary digits of a root.
const ROOT_BITS: u64 = 0x3_ffff_ffff;

// 2^-48
const LITTLE: f64 = 3.552713678800501e-15;

// 2^20 - 2^-33: half a step of 2^-32 less than 2^20, so that what is rounded to the nearest step comes out cut.
const BEFORE_CUT: f64 = 1048575.9999999999;

// A figure nearer to s^-0.4 than z: four terms of the series of z * (1 - e)^-0.2 with e = 1 - s^2 * z^5, of an s by its square.
fn nearer<const N: usize>(square: Simd<f64, N>, z: Simd<f64, N>) -> Simd<f64, N> {
    let one = Simd::splat(1.0);
    let fourth = z * z * (z * z);
    let e = one - square * (fourth * z);
    z * (one + e * (Simd::splat(0.2) + e * (Simd::splat(0.12) + e * Simd::splat(0.088))))
}

// N spreads to the power 0.6, side by side, since each is a long chain: a polynomial is within a thirtieth of s^-0.4, two steps make that
// 1e-15, and s times that is the power.
fn powers<const N: usize>(s: Simd<f64, N>) -> Simd<f64, N> {
    let first = Simd::splat(2.136)
        + s * (Simd::splat(-2.087)
            + s * (Simd::splat(1.2335) + s * (Simd::splat(-0.3309) + s * Simd::splat(0.0322))));
    let square = s * s;
    s * nearer(square, nearer(square, first))
}

// Where the root of a spread is looked for first, by its power. The promise says nothing, since the search answers the same from any place;
// from this one it ends at once. The power is cut to steps of 2^-32, which is the spacing of binary64 from 2^20 on. A little is added
// first, so that an exact root is not missed from below.
fn cut(power: f64) -> u64 {
    let place = power + LITTLE + BEFORE_CUT;
    if 0.0 <= place {
        return f64::to_bits(place) & ROOT_BITS;
    }
    0
}

pub fn guess(s: f64) -> u64 {
    cut(powers(f64x1::splat(s)).to_array()[0])
}

// The guesses of eight spreads. Of spreads of 1 none is looked at, so none is made.
pub fn guesses(spread: &[f64; 8]) -> [u64; 8] {
    if spread.iter().all(|s| *s == 1.0) {
        return [0; 8];
    }
    powers(f64x8::from_array(*spread)).to_array().map(cut)
}

// Where to look next between two ends: at the guess, one past it where it has become the lower end, else in the middle.
fn next(lo: u64, hi: u64, guess: u64) -> u64
    requires { (lo + 1 < hi) × (hi ≤ 2 ^ 34) }
    ensures { (lo < result) × (result < hi) }
{
    if guess == lo {
        lo + 1
    } else if (lo < guess) & (guess < hi) {
        guess
    } else {
        (lo + hi) / 2
    }
}

// Whether r is surely the root: by the upper halves of products, each of which loses less than 1. It says no where the fifth power of r or
// of the next place is so near to the cube that this counts. The bound on a is asked here and of the two below: a number of one call, made in `kept_spread`.
fn surely_root(a: u64, r: u64) -> bool
    requires { a < 2 ^ 57 }
    ensures { result ≡ true → (r < 2 ^ 34) × (4 * r ^ 5 ≤ a ^ 3) × (a ^ 3 < 4 * (r + 1) ^ 5) }
{
    if ABOVE <= r {
        return false;
    }
    let s = a * 0x80;
    let cube = high(high(s, s), s) / 2;
    let q = r * 0x4000_0000;
    let square = high(q, q);
    let fourth = high(square, square);
    let fifth = high(fourth, q);
    (fifth + 4 <= cube) & (cube + 2 <= fifth + 5 * (fourth / MOST))
}

// The largest r with 4 * r^5 at most the cube of a, between ends that close in on it.
fn searched(a: u64, guess: u64) -> u64
    requires { (0 < a) × (a < 2 ^ 57) }
    ensures { (result ≡ fifth_root 34 (a ^ 3 / 4)) × (result < 2 ^ 34) }
{
    let cube = power(1, a, 3);
    let mut lo: u64 = 0;
    let mut hi: u64 = MOST;
    // No `for`: how many steps it takes hangs on the guess.
    while hi - lo > 1 {
        let mid = next(lo, hi, guess);
        if at_most(power(4, mid, 5), cube) {
            lo = mid;
        } else {
            hi = mid;
        }
    }
    lo
}

// The largest r with 4 * r^5 at most the cube of a. A spread of 1 is the exact root that is common, and halves of products leave those open.
fn fifth_root(a: u64, guess: u64) -> u64
    requires { (0 < a) × (a < 2 ^ 57) }
    ensures { (result ≡ fifth_root 34 (a ^ 3 / 4)) × (result < 2 ^ 34) }
{
    if a == ONE_SPREAD {
        return ONE_ROOT;
    }
    if surely_root(a, guess) {
        return guess;
    }
    searched(a, guess)
}

// The spread to the power 0.6, of a spread from 0.25 to 4, with a place where to look first.
pub fn kept_spread(s: f64, guess: u64) -> f64
    requires { Spread s }
    ensures { result ≡ kept_spread s }
{
    on_grid(fifth_root(steps_of_spread(s), guess))
}
