// A bus's load: the reading that the clerk called, times its weight, rounded once (document 02, K6). Planning and placement check and work it out here.
#![tactic(auto)]

ghost use Rattle.std.specs.Prelude.{◌≡◌};
ghost use Rattle.loops.specs.Bounds.{most_buses};
ghost use Rattle.loops.specs.Figures.{at};
ghost use Rattle.loads.specs.Load.{load_by, loads_of, load_ok};

use loops::MOST_BUSES;

const MOST_MW: f64 = 1e6;

const MOST_WEIGHT: f64 = 1000.0;

// A bus's load.
pub fn load_by(reading: f64, weight: f64) -> f64
    ensures { result ≡ load_by reading weight }
{
    reading * weight
}

// Whether a bus's reading, weight and load are within their bounds.
pub fn load_ok(reading: f64, weight: f64) -> bool
    ensures { result ≡ load_ok reading weight (load_by reading weight) }
{
    let load = load_by(reading, weight);
    (0.0 <= reading && reading <= MOST_MW)
        && (0.0 < weight && weight <= MOST_WEIGHT)
        && (0.0 <= load && load <= MOST_MW)
}

// The figure of a place; a NaN past the table.
fn figure_at(table: &[f64], i: usize) -> f64
    ensures { result ≡ at table.now i }
{
    table.get(i).copied().unwrap_or(f64::NAN)
}

// The buses' loads. The tables may be of any length: past either of them a load is a NaN.
pub fn weigh(reading: &[f64], weight: &[f64]) -> [f64; MOST_BUSES]
    ensures { result ≡ loads_of most_buses reading.now weight.now }
{
    let mut load = [0.0; MOST_BUSES];
    loops::fill(&mut load, |i| {
        load_by(figure_at(reading, i), figure_at(weight, i))
    });
    load
}
