// The edges of a solve, which go with the fact that their ends are buses.
ghost use Rattle.angles_defs.specs.Network.{edges_of};
ghost use Rattle.planning.specs.Edges.{Between};

use arrayvec::ArrayVec;
use loops::MOST_CORRIDORS;

// Each joins two of so many buses; edge k is of corridor k.
#[derive(Drop)]
pub struct Edges {
    pub buses: usize,
    pub from: ArrayVec<u32, MOST_CORRIDORS>,
    pub to: ArrayVec<u32, MOST_CORRIDORS>,
    pub weight: ArrayVec<f64, MOST_CORRIDORS>,
    ghost joined: { Between buses (edges_of from.items to.items weight.items) },
}
