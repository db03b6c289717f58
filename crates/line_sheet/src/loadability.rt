// St. Clair loadability by the length of a line (`st_clair_loadability` of params.rs).
ghost use Rattle.std.specs.Prelude.{◌≡◌, ℕ, ◌-◌, ◌^◌, ◌<◌, ◌≤◌, true, false, slice_index};
ghost use Rattle.loops.specs.Figures.{at};
ghost use Rattle.loops.specs.Loops.{tab};
ghost use Rattle.line_defs.specs.Loadability.{by_segment, segment_of, middle, loadability_of};
ghost use Rattle.line_defs.specs.Bounds.{Knots};
ghost use Rattle.line_sheet.specs.Lanes.{in_knots, start_of, lane_of, Turning, turned, count_of};

use crate::grid::{on_grid, steps_of_length};
use crate::wide::high;
use line_defs::Segment;
use loops::greater;

// 1 is 2^30 units.
const UNIT: u64 = 0x4000_0000;

// The binary digits of a place between two knots that are worked out.
const DIGITS: u64 = 24;

// The digits of one length, as they are worked out: what is left, in units, and the digits so far and 1. `reach` is far / near in
// units, and `part` near / far in steps of 2^-64, each the next whole number.
#[derive(Clone, Copy)]
pub struct Lane {
    pub near: u64,
    pub far: u64,
    pub reach: u64,
    pub part: u64,
    pub left: u64,
    pub count: u64,
}

// Of five figures the one of the first segment that reaches to km.
#[tactic(auto, unfolding(line_defs::specs::Loadability::by_segment))]
fn by_segment(km: f64, a: u64, b: u64, c: u64, d: u64, e: u64) -> u64
    ensures { result ≡ by_segment km a b c d e }
{
    if km <= 160.0 {
        a
    } else if km <= 320.0 {
        b
    } else if km <= 480.0 {
        c
    } else if km <= 640.0 {
        d
    } else {
        e
    }
}

fn segment_of(km: f64) -> Segment
    ensures { result ≡ segment_of km }
{
    Segment {
        near: by_segment(km, 80, 160, 320, 480, 640),
        far: by_segment(km, 160, 320, 480, 640, 965),
        high: by_segment(km, 300, 200, 135, 100, 85),
        low: by_segment(km, 200, 135, 100, 85, 60),
    }
}

// Whether km lies between two knots.
fn in_knots(km: f64) -> bool
    ensures { result ≡ in_knots km }
{
    !(km <= 80.0) & (km <= 965.0)
}

// A length in units of near; 1 where it lies between no knots. The product with 2^64 / near, the next whole number, spares a division.
fn start(km: f64) -> u64
    ensures { result ≡ start_of km }
{
    if in_knots(km) {
        let share = by_segment(
            km,
            0x333_3333_3333_3334,
            0x199_9999_9999_999a,
            0xcc_cccc_cccc_cccd,
            0x88_8888_8888_8889,
            0x66_6666_6666_6667,
        );
        high(steps_of_length(km) / 0x1_0000, share)
    } else {
        UNIT
    }
}

fn lane_of(km: f64) -> Lane
    ensures { result ≡ lane_of km }
{
    Lane {
        near: by_segment(km, 80, 160, 320, 480, 640),
        far: by_segment(km, 160, 320, 480, 640, 965),
        reach: by_segment(
            km,
            0x8000_0000,
            0x8000_0000,
            0x6000_0000,
            0x5555_5556,
            0x6080_0000,
        ),
        part: by_segment(
            km,
            0x8000_0000_0000_0000,
            0x8000_0000_0000_0000,
            0xaaaa_aaaa_aaaa_aaab,
            0xc000_0000_0000_0000,
            0xa9c8_4a47_a07f_5638,
        ),
        left: start(km),
        count: 1,
    }
}

// One digit more of ln x / ln (far / near): x is squared, and where it reaches far / near it is divided by that and the digit is 1. Both
// results are worked out and one is chosen, since no processor foretells a digit.
fn turn(l: Lane) -> Lane
    requires { Turning l }
    ensures { result ≡ turned l }
{
    let w = l.left * l.left / UNIT;
    let divided = high(w, l.part);
    let reached = w >= l.reach;
    Lane {
        left: if reached { divided } else { w },
        count: 2 * l.count - !reached as u64,
        ..l
    }
}

// The digits of one length, and 1.
fn count_of(km: f64) -> u64
    ensures { result ≡ count_of km }
{
    let mut a = lane_of(km);
    for _digit in 0..DIGITS {
        a = turn(a);
    }
    a.count
}

// The middle of the two ends between which the loadability lies, in steps of 2^-32.
fn middle(g: Segment, count: u64) -> u64
    requires { Knots g × (0 < count) × (count ≤ 2 ^ 24) }
    ensures { (result ≡ middle g (count - 1)) × (result < 2 ^ 53) }
{
    (g.high * 0x100_0000 - (g.high - g.low) * count) * 256 / 100
}

// The loadability in multiples of the surge impedance loading: 3 at 80 km and as 1 / km below, log-interpolated to 965 km, and as
// 1 / √km beyond, with a floor of 0.4. The digits of the place between two knots come with the length.
fn rated(km: f64, count: u64) -> f64
    requires { in_knots km ≡ true → count ≡ count_of km }
    ensures { result ≡ loadability_of km }
{
    if km <= 80.0 {
        return 240.0 / greater(km, 0.001);
    }
    if km <= 965.0 {
        return on_grid(middle(segment_of(km), count));
    }
    greater(0.6 * root::sqrt(965.0 / km), 0.4)
}

pub fn loadability(km: f64) -> f64
    ensures { result ≡ loadability_of km }
{
    if in_knots(km) {
        return rated(km, count_of(km));
    }
    rated(km, 1)
}

// The lanes of eight lengths.
fn lanes_of(km: &[f64; 8]) -> [Lane; 8]
    ensures { result ≡ tab 8 (λ j. lane_of (at km.now j)) }
{
    km.map(lane_of)
}

// One digit more of each of eight lengths.
fn turn_each(lanes: &mut [Lane; 8])
    requires { (f : ℕ → Lane) → lanes.old ≡ tab 8 f → (j : ℕ) → j < 8 → Turning (f j) }
    ensures { (f : ℕ → Lane) → lanes.old ≡ tab 8 f → lanes.new ≡ tab 8 (λ j. turned (f j)) }
{
    for lane in lanes.iter_mut() {
        *lane = turn(*lane);
    }
}

// The digits of eight lengths, and 1. Each digit waits for the one before, so eight lengths take little longer than one.
fn counts_of(km: &[f64; 8]) -> [u64; 8]
    ensures { result ≡ tab 8 (λ j. count_of (at km.now j)) }
{
    let mut lanes = lanes_of(km);
    for _digit in 0..DIGITS {
        turn_each(&mut lanes);
    }
    lanes.map(|lane| lane.count)
}

// Whether one of eight lengths lies between knots.
fn some_in_knots(km: &[f64; 8]) -> bool
    ensures { result ≡ false → (j : ℕ) → j < 8 → in_knots (at km.now j) ≡ false }
{
    km.iter().any(|x| in_knots(*x))
}

// The digits, and 1, where they are asked for.
fn counts(km: &[f64; 8]) -> [u64; 8]
    ensures { (j : ℕ) → j < 8 → in_knots (at km.now j) ≡ true → slice_index result j ≡ count_of (at km.now j) }
{
    if some_in_knots(km) {
        return counts_of(km);
    }
    [1u64; 8]
}

// The loadabilities of eight lengths.
pub fn loadabilities(km: &[f64; 8]) -> [f64; 8]
    ensures { result ≡ tab 8 (λ j. loadability_of (at km.now j)) }
{
    let count = counts(km);
    // `std::array::from_fn` was tried: its clause says nothing at an index of what a closure holds, so that each of the eight would need a proof.
    let mut r = [0.0f64; 8];
    loops::fill(&mut r, |j| rated(km[j], count[j]));
    r
}
