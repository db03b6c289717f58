// A demand strictly between the limits' sums: the outputs at the price found, and the gap that they leave.
ghost use Rattle.std.specs.Prelude.{◌&&◌, ◌≡◌, length};
ghost use Rattle.loops.specs.Loops.{fault};
ghost use Rattle.dispatch_defs.specs.Units.{count};
ghost use Rattle.dispatch_defs.specs.Share.{outputs, stuck_at, closed, shared};

use crate::price::price;
use crate::table::UnitTable;
use loops::{clamp, sum};

// `mw` stays a slice beside the units, and four functions ask that it has their length: of a struct that held both, each contract
// would have to promise besides that it is the same slice.

// The outputs at a price.
#[tactic(auto, unfolding(dispatch_defs::specs::Share::outputs, dispatch_defs::specs::Units::output_at))]
fn run_at(units: &UnitTable, price: f64, mw: &mut [f64])
    requires { length mw.old ≡ count units.now }
    ensures { mw.new ≡ outputs units.now price }
{
    loops::fill(mw, |i| units.unit(i).output(price));
}

// The first unit strictly inside its limits.
fn first_free(units: &UnitTable, out: &[f64]) -> Option<usize>
    requires { length out.now ≡ count units.now }
    ensures { result ≡ fault (stuck_at units.now.pmin units.now.pmax out.now) (count units.now) }
{
    loops::first_fault(units.len(), |i| {
        let unit = units.unit(i);
        !(unit.pmin < out[i] && out[i] < unit.pmax)
    })
}

// Gives what is left of the demand to the first unit strictly inside its limits, within them.
#[tactic(auto, using(loops::proofs::Scan::fault_some, loops::proofs::Scan::fault_passed, crate::proofs::Sharing::closed_at_lem, crate::proofs::Sharing::closed_none), unfolding(dispatch_defs::specs::Share::first_free))]
fn close_gap(units: &UnitTable, demand: f64, mw: &mut [f64])
    requires { length mw.old ≡ count units.now }
    ensures { mw.new ≡ closed units.now.pmin units.now.pmax demand mw.old }
{
    let gap = demand - sum(mw);
    if let Some(i) = first_free(units, mw) {
        let unit = units.unit(i);
        mw[i] = clamp(mw[i] + gap, unit.pmin, unit.pmax);
    }
}

// Leaves in `mw` what each unit gives of a demand strictly between the sums.
#[tactic(auto, unfolding(dispatch_defs::specs::Share::shared))]
pub fn share(units: &UnitTable, demand: f64, mw: &mut [f64])
    requires { length mw.old ≡ count units.now }
    ensures { mw.new ≡ shared units.now demand }
{
    run_at(units, price(units, demand), mw);
    close_gap(units, demand, mw);
}
