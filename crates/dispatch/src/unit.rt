// One unit: its limits and costs, what its next MW costs, and what it gives at a price.
ghost use Rattle.std.specs.Prelude.{◌&&◌, ◌≡◌};
ghost use Rattle.loops.specs.Figures.{finite};
ghost use Rattle.dispatch_defs.specs.Units.{unit_ok, cost_of, output_of};

use dispatch_defs::unit_ok;
use loops::{clamp, greater};

// What c2 is raised to: without a quadratic cost a price would fix no output.
const LEAST_C2: f64 = 1e-12;

#[derive(Clone, Copy)]
pub struct Unit {
    pub pmin: f64,
    pub pmax: f64,
    pub c1: f64,
    pub c2: f64,
}

impl Unit {
    pub fn is_sound(self) -> bool
        ensures { result ≡ unit_ok self.pmin self.pmax self.c1 self.c2 }
    {
        unit_ok(self.pmin, self.pmax, self.c1, self.c2)
    }

    // The incremental cost at an output of p.
    pub fn cost(self, p: f64) -> f64
        ensures { result ≡ cost_of self.c1 self.c2 p }
    {
        self.c1 + 2.0 * self.c2 * p
    }

    // Is it finite at both limits?
    pub fn has_finite_costs(self) -> bool
        ensures { result ≡ (finite (cost_of self.c1 self.c2 self.pmin) && finite (cost_of self.c1 self.c2 self.pmax)) }
    {
        loops::is_finite(self.cost(self.pmin)) && loops::is_finite(self.cost(self.pmax))
    }

    // The output at which the incremental cost is the price, within the limits.
    pub fn output(self, price: f64) -> f64
        ensures { result ≡ output_of price self.pmin self.pmax self.c1 self.c2 }
    {
        clamp(
            (price - self.c1) / (2.0 * greater(LEAST_C2, self.c2)),
            self.pmin,
            self.pmax,
        )
    }
}
