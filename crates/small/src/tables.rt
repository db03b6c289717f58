// The records of a network, and the header. Case L's figures stand where the request names none.
ghost use Rattle.std.specs.Prelude.{◌≡◌, ◌≤◌};
ghost use Rattle.small.specs.Columns.{corridor_count, first_pair, second_pair, pair_of, lower_end, upper_end, lowest_load, load_at, row_figure, header_for};

use crate::order::Shape;
use casefile_defs::Header;
use mode::PlanMode;

// The level's kV.
pub const KV: f64 = 138.0;

// A load in MW, and a corridor's length in km.
const LOAD: f64 = 10.0;

pub const LENGTH: f64 = 10.0;

// The generator's upper limit, MW, and its costs.
pub const PMAX: f64 = 100.0;

pub const C1: f64 = 20.0;

pub const C2: f64 = 0.25;

// The pairs of three buses.
const PAIRS: [(u32, u32); 3] = [(0, 1), (0, 2), (1, 2)];

const LAST_PAIR: usize = 2;

// The load of the bus whose bit is the lowest of a number.
fn lowest_load(n: usize) -> f64
    ensures { result ≡ lowest_load n }
{
    if n % 2 == 1 { LOAD } else { 0.0 }
}

// The load of a bus: bus 0's bit is the lowest.
pub fn load(loads: usize, bus: usize) -> f64
    ensures { result ≡ load_at loads bus }
{
    match bus {
        0 => lowest_load(loads),
        1 => lowest_load(loads / 2),
        _ => lowest_load(loads / 2 / 2),
    }
}

pub fn corridor_count(corridors: usize) -> usize
    ensures value { result ≡ corridor_count corridors }
    ensures few { result ≤ 3 }
{
    (corridors % 8).count_ones() as usize
}

// The pair of the first corridor, and of the second; that of a third is the last.
fn first_pair(corridors: usize) -> usize
    ensures value { result ≡ first_pair corridors }
    ensures few { result ≤ 2 }
{
    if corridors % 2 == 1 {
        0
    } else if corridors / 2 % 2 == 1 {
        1
    } else {
        LAST_PAIR
    }
}

fn second_pair(corridors: usize) -> usize
    ensures value { result ≡ second_pair corridors }
    ensures few { result ≤ 2 }
{
    if corridors % 4 == 3 { 1 } else { LAST_PAIR }
}

fn pair_of(corridors: usize, i: usize) -> usize
    ensures value { result ≡ pair_of corridors i }
    ensures few { result ≤ 2 }
{
    match i {
        0 => first_pair(corridors),
        1 => second_pair(corridors),
        _ => LAST_PAIR,
    }
}

// The two buses of a corridor, the lower one first.
pub fn ends(corridors: usize, i: usize) -> (u32, u32)
    ensures lower { result.0 ≡ lower_end (pair_of corridors i) }
    ensures upper { result.1 ≡ upper_end (pair_of corridors i) }
{
    PAIRS[pair_of(corridors, i)]
}

// Places of a row's figures.
const REACTANCE: usize = 1;

const RATE: usize = 3;

// Of a row the reactance is 0.5, the rate 100, and the rest zero.
pub fn row_figure(j: usize) -> f64
    ensures { result ≡ row_figure j }
{
    match j {
        REACTANCE => 0.5,
        RATE => 100.0,
        _ => 0.0,
    }
}

pub fn header_of(s: Shape) -> Header
    ensures { result ≡ header_for s }
{
    let corridors = corridor_count(s.corridors);
    Header {
        mode: PlanMode::Observe,
        target: 0,
        buses: s.buses,
        corridors,
        generators: 1,
        above: 0,
        requested: 1,
    }
}
