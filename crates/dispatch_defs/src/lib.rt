// What the definition of a dispatch speaks of, and the one test that acceptance has with it. specs/ has the definition, proofs/ its laws and worked examples.
#![tactic(auto)]

ghost use Rattle.std.specs.Prelude.{◌≡◌};
ghost use Rattle.dispatch_defs.specs.Units.{unit_ok};

const MOST_MW: f64 = 1e6;

const MOST_C1: f64 = 1e6;

// The prices between which the demand is met.
#[derive(Clone, Copy)]
pub struct Bracket {
    pub lo: f64,
    pub hi: f64,
}

// A unit's limits and costs are within their bounds. A NaN fails every test.
pub fn unit_ok(pmin: f64, pmax: f64, c1: f64, c2: f64) -> bool
    ensures { result ≡ unit_ok pmin pmax c1 c2 }
{
    0.0 <= pmin
        && pmin <= pmax
        && pmax <= MOST_MW
        && 0.0 <= c1
        && c1 <= MOST_C1
        && 0.0 <= c2
        && c2 < loops::infinity()
}
