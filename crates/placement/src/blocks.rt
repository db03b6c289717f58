// The candidates by blocks of sixteen buses. The nearest of each block is kept, so that the next bus to settle is found among sixteen, and
// when it is settled only its own block is looked at again.
//
// Nine functions here and two of distance.rt ask that the number of buses is at most 256: `Labels` has all places whatever it is, and the network, whose field it
// is, is not what a block is searched by.
ghost use Rattle.std.specs.Prelude.{◌≡◌, ◌+◌, ◌≤◌, ◌<◌, ◌||◌, eqb, true, length};
ghost use Rattle.std.specs.Float.Ieee.{lt};
ghost use Rattle.loops.specs.Figures.{at};
ghost use Rattle.std.specs.Option.{ForSome};
ghost use Rattle.placement_defs.specs.Request.{most_buses};
ghost use Rattle.placement_defs.specs.Distance.{nearer, nearest_to, settle, reached};
ghost use Rattle.placement.specs.Choices.{number};
ghost use Rattle.placement.specs.Marks.{marks_in, origin_of};
ghost use Rattle.placement.specs.Views.{labels_in};
ghost use Rattle.placement.specs.Blocks.{block_size, most_blocks, Chosen, closer, nearest_with, Front};

use crate::labels::{Labels, Mark};
use crate::{BLOCK, BLOCKS};
use loops::MOST_BUSES;

// Whether bus i is chosen before the best so far.
fn is_nearer(n: usize, dist: &[f64; MOST_BUSES], best: Option<usize>, i: usize) -> bool
    requires { (n ≤ most_buses) × (i < n) × ForSome best (λ b. b < n) }
    ensures { result ≡ (eqb (number n best) n || lt (at dist.now i) (at dist.now (number n best))) }
{
    match best {
        Some(b) => dist[i] < dist[b],
        None => true,
    }
}

// The better of two choices: i where it is a candidate and none was found before it, or is closer.
fn nearer_bus(n: usize, labels: &Labels, best: Option<usize>, i: usize) -> Option<usize>
    requires { (n ≤ most_buses) × (i < n) × ForSome best (λ b. b < n) }
    ensures bus { ForSome result (λ b. b < n) }
    ensures value { number n result ≡ nearer n (marks_in labels.now.mark) labels.now.dist (number n best) i }
{
    let Mark::Candidate = labels.mark[i] else {
        return best;
    };
    if is_nearer(n, &labels.dist, best, i) {
        Some(i)
    } else {
        best
    }
}

// The nearest candidate of the block that begins at bus lo, the lowest on a tie.
fn nearest_in_block(n: usize, labels: &Labels, lo: usize) -> Option<usize>
    requires { (lo < n) × (n ≤ most_buses) }
    ensures { Chosen n (marks_in labels.now.mark) labels.now.dist lo (lo + block_size) result }
{
    let mut best = None;
    for i in lo..(lo + BLOCK).min(n) {
        best = nearer_bus(n, labels, best, i);
    }
    best
}

// Looks at every block.
#[tactic(auto, using(crate::proofs::Ranges::numbers_fewer))]
pub fn look_at_blocks(n: usize, labels: &Labels, nearest: &mut [Option<usize>; BLOCKS])
    requires { (n ≤ most_buses) × (length nearest.old ≡ most_blocks) }
    ensures { Front n (marks_in labels.now.mark) labels.now.dist nearest.new }
{
    for k in 0..n.div_ceil(BLOCK) {
        nearest[k] = nearest_in_block(n, labels, BLOCK * k);
    }
}

// The better of two choices: the later one where there is one and none was found before it, or is closer.
fn closer_bus(
    n: usize,
    dist: &[f64; MOST_BUSES],
    best: Option<usize>,
    later: Option<usize>,
) -> Option<usize>
    requires { (n ≤ most_buses) × ForSome best (λ b. b < n) × ForSome later (λ b. b < n) }
    ensures bus { ForSome result (λ b. b < n) }
    ensures value { number n result ≡ closer n dist.now (number n best) (number n later) }
{
    let Some(x) = later else {
        return best;
    };
    if is_nearer(n, dist, best, x) {
        Some(x)
    } else {
        best
    }
}

// Step 2: the candidate of least distance, the lowest on a tie. By index, as blocks are: of those that the buses reach.
pub fn nearest_candidate(
    n: usize,
    labels: &Labels,
    nearest: &[Option<usize>; BLOCKS],
) -> Option<usize>
    requires n_le_most_buses { n ≤ most_buses }
    requires front { Front n (marks_in labels.now.mark) labels.now.dist nearest.now }
    ensures bus { ForSome result (λ b. b < n) }
    ensures value { number n result ≡ nearest_to n (marks_in labels.now.mark) labels.now.dist n }
{
    let mut best = None;
    for k in 0..n.div_ceil(BLOCK) {
        best = closer_bus(n, &labels.dist, best, nearest[k]);
    }
    best
}

// Settles bus i.
pub fn settle_bus(n: usize, i: usize, labels: &mut Labels, nearest: &mut [Option<usize>; BLOCKS])
    requires n_le_most_buses { (n ≤ most_buses) × (i < n) }
    requires front { Front n (marks_in labels.old.mark) labels.old.dist nearest.old }
    ensures labels_after { labels_in labels.new ≡ settle i (labels_in labels.old) }
    ensures front_2 { Front n (marks_in labels.new.mark) labels.new.dist nearest.new }
{
    labels.mark[i] = Mark::Settled;
    let k = i / BLOCK;
    nearest[k] = nearest_in_block(n, labels, BLOCK * k);
}

// The nearest of a block whose nearest was best, after bus j of it came to nd km.
fn nearest_with(n: usize, dist: &[f64; MOST_BUSES], best: Option<usize>, j: usize, nd: f64) -> usize
    requires { (n ≤ most_buses) × (j < n) × ForSome best (λ b. b < n) }
    ensures bus { result < n }
    ensures value { result ≡ nearest_with n dist.now (number n best) j nd }
{
    let Some(b) = best else {
        return j;
    };
    if nd < dist[b] {
        return j;
    }
    if dist[b] < nd {
        return b;
    }
    j.min(b)
}

// Bus j is reached at nd km, nearer than it was, from the source src.
pub fn reach_bus(
    n: usize,
    j: usize,
    nd: f64,
    src: Option<u8>,
    labels: &mut Labels,
    nearest: &mut [Option<usize>; BLOCKS],
)
    requires n_le_most_buses { (n ≤ most_buses) × (j < n) × (lt nd (at labels.old.dist j) ≡ true) }
    requires front { Front n (marks_in labels.old.mark) labels.old.dist nearest.old }
    ensures from_after { labels_in labels.new
        ≡ reached j nd (origin_of src) (labels_in labels.old) }
    ensures front_2 { Front n (marks_in labels.new.mark) labels.new.dist nearest.new }
{
    labels.mark[j] = Mark::Candidate;
    labels.dist[j] = nd;
    labels.from[j] = src;
    let k = j / BLOCK;
    nearest[k] = Some(nearest_with(n, &labels.dist, nearest[k], j, nd));
}
