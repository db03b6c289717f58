// Synchronous condensers for remote load pockets (document 01, module 7; reactive.rs, `place_voltage_support`).
#![tactic(auto)]

ghost use Rattle.std.specs.Prelude.{◌≡◌};
ghost use Rattle.placement_defs.specs.Request.{request_of};
ghost use Rattle.placement_defs.specs.Support.{outcome, placement};

use crate::check::Request;
use crate::lists::Lists;
use crate::network::Network;
use loops::MOST_BUSES;
use refusal::Refusal;

mod blocks;
mod check;
mod condenser;
mod corridors;
mod distance;
mod labels;
mod lists;
mod network;

// Buses of a block, and blocks.
const BLOCK: usize = 16;

const BLOCKS: usize = MOST_BUSES / BLOCK;

// Puts a condenser at the farthest loaded bus as long as one lies more than 100 km of corridor from the nearest generator or
// condenser, then sizes each to half the load that lies nearest to it, 5 Mvar at least. A bus's load is its reading times its weight, rounded once.
// Reads n buses, m corridors and g generators; writes the condensers' buses and Mvar, zero past their count.
// Each slice is a parameter of its own, as the project's scope lists them.
#[tactic(auto, using(crate::proofs::Checks::passed, crate::proofs::Sites::refused_is, crate::proofs::Sites::done_is))]
pub fn place_voltage_support(
    n: usize,
    m: usize,
    g: usize,
    reading: &[f64],
    weight: &[f64],
    a: &[u32],
    b: &[u32],
    km: &[f64],
    generators: &[u32],
    buses: &mut [u32],
    mvars: &mut [f64],
) -> Result<usize, Refusal>
    ensures { outcome result buses.new mvars.new
        ≡ placement (request_of n m g reading.now weight.now a.now b.now km.now generators.now) buses.old mvars.old }
{
    let request = Request {
        n,
        m,
        g,
        reading,
        weight,
        a,
        b,
        km,
        generators,
    };
    request.check(buses.len(), mvars.len())?;
    let mut lists = Lists::blank();
    lists.list(&request);
    let network = Network::new(&request, &lists);
    Ok(condenser::place(&network, generators, buses, mvars))
}
