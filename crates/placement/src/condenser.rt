// Condensers: where they stand, and how large they are.
ghost use Rattle.std.specs.Prelude.{◌≡◌, ℕ, ◌≤◌, ◌<◌, length, get_or};
ghost use Rattle.std.specs.Option.{ForSome};
ghost use Rattle.placement_defs.specs.Request.{most_buses, Units};
ghost use Rattle.placement_defs.specs.Support.{farther, farthest_to, next_by, added, served_to, mvar_of, sized, flagged};
ghost use Rattle.placement.specs.Choices.{number};
ghost use Rattle.placement.specs.Marks.{origin_of, origins_in};
ghost use Rattle.placement.specs.Stages.{Joined, Placing};
ghost use Rattle.placement.specs.Views.{network_in, loads_in, flags_in};

use crate::distance::{distance_to_sources, distance_with_source};
use crate::labels::{Labels, Mark};
use crate::network::Network;
use loops::MOST_BUSES;

// A load farther than this from every source gets a condenser: reactive power does not travel far, and voltage control areas span tens to a
// little over a hundred kilometres (Kundur, Power System Stability and Control, 1994, section 11.2).
const VOLTAGE_SUPPORT_KM: f64 = 100.0;

// Mvar of a condenser for each MW that lies nearest to it: the 0.33 of a load at power factor 0.95, with headroom.
const VOLTAGE_SUPPORT_Q_SHARE: f64 = 0.5;

// The least bank, a small step at 69 to 138 kV (IEEE Std 1036).
const MIN_SHUNT_BANK_MVAR: f64 = 5.0;

// The better of two choices: i where it is loaded and reached, and none was found before it, or is farther.
fn farther_bus(
    network: &Network,
    dist: &[f64; MOST_BUSES],
    best: Option<usize>,
    i: usize,
) -> Option<usize>
    requires { (i < network.now.n) × ForSome best (λ b. b < network.now.n) }
    ensures bus { ForSome result (λ b. b < network.now.n) }
    ensures value { number network.now.n result ≡ farther network.now.n (loads_in network.now) dist.now (number network.now.n best) i }
{
    if !((0.0 < network.load(i)) & (dist[i] < loops::infinity())) {
        return best;
    }
    let Some(b) = best else {
        return Some(i);
    };
    if dist[i] > dist[b] { Some(i) } else { best }
}

// The farthest loaded bus that a source reaches, the lowest on a tie.
fn farthest_bus(network: &Network, dist: &[f64; MOST_BUSES]) -> Option<usize>
    ensures bus { ForSome result (λ b. b < network.now.n) }
    ensures value { number network.now.n result ≡ farthest_to network.now.n (loads_in network.now) dist.now network.now.n }
{
    let mut best = None;
    for i in 0..network.n {
        best = farther_bus(network, dist, best, i);
    }
    best
}

// The bus that is to have a condenser next: the farthest, if it lies more than 100 km away.
fn next_condenser(network: &Network, dist: &[f64; MOST_BUSES]) -> Option<usize>
    ensures bus { ForSome result (λ b. b < network.now.n) }
    ensures value { number network.now.n result ≡ next_by network.now.n (loads_in network.now) dist.now }
{
    let i = farthest_bus(network, dist)?;
    if dist[i] > VOLTAGE_SUPPORT_KM {
        Some(i)
    } else {
        None
    }
}

// Joins condensers to the sources while a loaded bus lies far, and writes their buses.
fn join_condensers(network: &Network, sources: &mut [bool; MOST_BUSES], buses: &mut [u32]) -> usize
    requires { (length sources.old ≡ most_buses) × (length buses.old ≡ network.now.n) }
    ensures joined { Joined (network_in network.now) (loads_in network.now) (flags_in sources.old) buses.old (flags_in sources.new) buses.new result }
    ensures stand { (k : ℕ) → k < result → get_or buses.new k 0 < most_buses }
{
    let mut labels = Labels::blank();
    distance_to_sources(network, sources, &mut labels);
    for count in 0..network.n {
        let Some(i) = next_condenser(network, &labels.dist) else {
            return count;
        };
        sources[i] = true;
        buses[count] = i as u32;
        labels.mark = [Mark::Rest; MOST_BUSES];
        distance_with_source(network, i, &mut labels);
    }
    network.n
}

// One more load, where it lies nearest to the bus.
fn add_load(sum: f64, load: f64, from: Option<u8>, bus: u32) -> f64
    requires { bus < most_buses }
    ensures { result ≡ added sum load (origin_of from) bus }
{
    let Some(source) = from else {
        return sum;
    };
    if source as u32 == bus {
        sum + load
    } else {
        sum
    }
}

// The loads that lie nearest to a bus, added by bus index.
fn served_by(network: &Network, from: &[Option<u8>; MOST_BUSES], bus: u32) -> f64
    requires { bus < most_buses }
    ensures { result ≡ served_to (loads_in network.now) (origins_in from.now) bus network.now.n }
{
    let mut sum = 0.0;
    for i in 0..network.n {
        sum = add_load(sum, network.load(i), from[i], bus);
    }
    sum
}

// A condenser's size: half of what it serves, or the least bank. `f64::max` would answer the least bank of a NaN.
#[tactic(auto, unfolding(placement_defs::specs::Support::mvar_of))]
fn mvar_of(network: &Network, from: &[Option<u8>; MOST_BUSES], bus: u32) -> f64
    requires { bus < most_buses }
    ensures { result ≡ mvar_of (loads_in network.now) (origins_in from.now) network.now.n bus }
{
    loops::greater(
        VOLTAGE_SUPPORT_Q_SHARE * served_by(network, from, bus),
        MIN_SHUNT_BANK_MVAR,
    )
}

// Sizes the condensers once all are placed.
fn size_condensers(
    network: &Network,
    sources: &[bool; MOST_BUSES],
    count: usize,
    buses: &[u32],
    mvars: &mut [f64],
)
    requires lengths { (length buses.now ≡ network.now.n) × (length mvars.old ≡ network.now.n) × (count ≤ network.now.n) }
    requires stand { (k : ℕ) → k < count → get_or buses.now k 0 < most_buses }
    ensures { mvars.new ≡ sized (network_in network.now) (loads_in network.now) (flags_in sources.now) buses.now count mvars.old }
{
    if count == 0 {
        return;
    }
    let mut labels = Labels::blank();
    distance_to_sources(network, sources, &mut labels);
    for k in 0..count {
        mvars[k] = mvar_of(network, &labels.from, buses[k]);
    }
}

// Flags the generators' buses.
fn flag_generators(generators: &[u32], sources: &mut [bool; MOST_BUSES])
    requires { Units most_buses generators.now }
    ensures { flags_in sources.new ≡ flagged generators.now (flags_in sources.old) }
{
    for bus in generators {
        sources[*bus as usize] = true;
    }
}

// The condensers of a sound request.
pub fn place(network: &Network, generators: &[u32], buses: &mut [u32], mvars: &mut [f64]) -> usize
    requires units { Units network.now.n generators.now }
    requires results { (length buses.old ≡ network.now.n) × (length mvars.old ≡ network.now.n) }
    ensures { Placing (network_in network.now) (loads_in network.now) generators.now result buses.new mvars.new }
{
    buses.fill(0);
    mvars.fill(0.0);
    let mut sources = [false; MOST_BUSES];
    flag_generators(generators, &mut sources);
    let count = join_condensers(network, &mut sources, buses);
    size_condensers(network, &sources, count, buses, mvars);
    count
}
