// Corridor-km from every bus to its nearest source by Dijkstra's method. A bus's mark says which of the three sets it is in.
ghost use Rattle.std.specs.Prelude.{◌≡◌, ◌≤◌, ◌<◌, ◌||◌, eqb, true};
ghost use Rattle.loops.specs.Loops.{iter};
ghost use Rattle.placement_defs.specs.Request.{most_buses};
ghost use Rattle.placement_defs.specs.Distance.{seeded, seed, shortens, far_end, considered, spread, searched, distances_from};
ghost use Rattle.placement.specs.Blocks.{Front};
ghost use Rattle.placement.specs.Marks.{mark_of, marks_in};
ghost use Rattle.placement.specs.Views.{labels_in, network_in, flag_of, flags_in};

use crate::BLOCKS;
use crate::blocks::{look_at_blocks, nearest_candidate, reach_bus, settle_bus};
use crate::labels::{Labels, Mark};
use crate::network::Network;
use loops::MOST_BUSES;

// A source is a candidate at no distance from itself.
fn place_source(i: usize, source: bool, labels: &mut Labels)
    requires { i < most_buses }
    ensures { labels_in labels.new ≡ seeded i (flag_of source) (labels_in labels.old) }
{
    if !source {
        return;
    }
    labels.mark[i] = Mark::Candidate;
    labels.dist[i] = 0.0;
    labels.from[i] = Some(i as u8);
}

// The sources, from which the search begins.
fn place_sources(n: usize, sources: &[bool; MOST_BUSES], labels: &mut Labels)
    requires { n ≤ most_buses }
    ensures { labels_in labels.new ≡ iter (seed (flags_in sources.now)) n 0 (labels_in labels.old) }
{
    for i in 0..n {
        place_source(i, sources[i], labels);
    }
}

// Whether a way of nd km is taken to a bus with this mark and distance.
fn shortens_way(mark: Mark, nd: f64, d: f64) -> bool
    ensures { result ≡ shortens (mark_of mark) nd d }
{
    !matches!(mark, Mark::Settled) & (nd < d)
}

fn far_end(n: usize, a: usize, b: usize, i: usize) -> usize
    requires { (a < n) × (b < n) }
    ensures value { result ≡ far_end a b i }
    ensures upper_bound { result < n }
{
    if a == i { b } else { a }
}

// Step 1 for one corridor that ends at i: its other end is reached over it if that is shorter.
fn consider(
    n: usize,
    i: usize,
    a: usize,
    b: usize,
    km: f64,
    labels: &mut Labels,
    nearest: &mut [Option<usize>; BLOCKS],
)
    requires n_le_most_buses { (n ≤ most_buses) × (i < n) × (a < n) × (b < n) }
    requires ends { (eqb a i || eqb b i) ≡ true }
    requires front { Front n (marks_in labels.old.mark) labels.old.dist nearest.old }
    ensures from_after { labels_in labels.new ≡ considered i a b km (labels_in labels.old) }
    ensures front_2 { Front n (marks_in labels.new.mark) labels.new.dist nearest.new }
{
    let j = far_end(n, a, b, i);
    let nd = labels.dist[i] + km;
    if !shortens_way(labels.mark[j], nd, labels.dist[j]) {
        return;
    }
    let src = labels.from[i];
    reach_bus(n, j, nd, src, labels, nearest);
}

// Settles bus i, and considers its corridors.
fn spread_from(
    network: &Network,
    i: usize,
    labels: &mut Labels,
    nearest: &mut [Option<usize>; BLOCKS],
)
    requires i_lt_n { i < network.now.n }
    requires front { Front network.now.n (marks_in labels.old.mark) labels.old.dist nearest.old }
    ensures from_after { labels_in labels.new ≡ spread (network_in network.now) i (labels_in labels.old) }
    ensures front_2 { Front network.now.n (marks_in labels.new.mark) labels.new.dist nearest.new }
{
    settle_bus(network.n, i, labels, nearest);
    let mut next = network.first(i);
    while let Some(c) = next {
        consider(
            network.n,
            i,
            network.a[c] as usize,
            network.b[c] as usize,
            network.km[c],
            labels,
            nearest,
        );
        next = network.after(c, i);
    }
}

// Both steps, until no candidate is left.
fn search(network: &Network, labels: &mut Labels)
    ensures { labels_in labels.new ≡ searched (network_in network.now) (labels_in labels.old) }
{
    let mut nearest = [None; BLOCKS];
    look_at_blocks(network.n, labels, &mut nearest);
    // Each turn settles a bus.
    for _turn in 0..network.n {
        let Some(i) = nearest_candidate(network.n, labels, &nearest) else {
            return;
        };
        spread_from(network, i, labels, &mut nearest);
    }
}

// Corridor-km from every bus to its nearest source, and that source.
pub fn distance_to_sources(network: &Network, sources: &[bool; MOST_BUSES], labels: &mut Labels)
    ensures { labels_in labels.new
        ≡ distances_from (network_in network.now) (flags_in sources.now) (labels_in labels.old) }
{
    place_sources(network.n, sources, labels);
    search(network, labels);
}

// The distances after bus i has joined the sources, from those before: only the buses that now lie nearer to i are reached again. The
// distances are those of a search from all sources (proofs/Again); the sources need not be, where two lie equally far.
pub fn distance_with_source(network: &Network, i: usize, labels: &mut Labels)
    requires { i < network.now.n }
    ensures { labels_in labels.new
        ≡ searched (network_in network.now) (seeded i 1 (labels_in labels.old)) }
{
    place_source(i, true, labels);
    search(network, labels);
}
