// The network of a solve, which goes with the facts that its edges end at buses and that its grounds are buses.
ghost use Rattle.angles.specs.Edges.{EdgesBelow, GroundsBelow};

// n buses, the edges between them by the ends and the weight of each, and the buses that are grounded.
#[derive(Clone, Copy)]
pub struct Grid<'a> {
    pub n: usize,
    pub from: &'a [u32],
    pub to: &'a [u32],
    pub weight: &'a [f64],
    pub grounds: &'a [u32],
    ghost edges_below: { EdgesBelow n from.now to.now weight.now },
    ghost grounds_below: { GroundsBelow n grounds.now },
}
