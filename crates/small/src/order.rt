// The order of the networks: from a place to the buses, and the binary numbers of its corridors and loads.
ghost use Rattle.std.specs.Prelude.{◌≡◌, ◌<◌};
ghost use Rattle.small.specs.Columns.{shape, shape_at};

// The first places of networks of two and of three buses.
const FIRST_OF_TWO: usize = 2;

const FIRST_OF_THREE: usize = 10;

// A network: its buses, and which pairs have a corridor and which buses a load, as binary numbers.
#[derive(Clone, Copy)]
pub struct Shape {
    pub buses: usize,
    pub corridors: usize,
    pub loads: usize,
}

// A number among the networks of so many buses: for each set of corridors there are so many sets of loads.
fn numbered(buses: usize, number: usize, loadings: usize) -> Shape
    requires { 0 < loadings }
    ensures { result ≡ shape buses number loadings }
{
    Shape {
        buses,
        corridors: number / loadings,
        loads: number % loadings,
    }
}

pub fn network_at(place: usize) -> Shape
    ensures { result ≡ shape_at place }
{
    if place < FIRST_OF_TWO {
        return numbered(1, place, 2);
    }
    if place < FIRST_OF_THREE {
        return numbered(2, place - FIRST_OF_TWO, 4);
    }
    numbered(3, place - FIRST_OF_THREE, 8)
}
