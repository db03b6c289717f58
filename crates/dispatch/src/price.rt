// The price at which the units give the demand, by bisection.
ghost use Rattle.std.specs.Prelude.{◌≡◌};
ghost use Rattle.dispatch_defs.specs.Share.{opening, total_at, halved, narrow, price_of};

use crate::table::UnitTable;
use dispatch_defs::Bracket;
use loops::{greater, lesser, magnitude};

const HALVINGS: usize = 200;

// The bracket is narrow where its width is this part of its upper end, or of 1.
const TOLERANCE: f64 = 1e-12;

// What all units give at a price.
#[tactic(auto, using(loops::proofs::Totals::sum_start, loops::proofs::Totals::sum_turn), unfolding(dispatch_defs::specs::Share::total_at, dispatch_defs::specs::Units::output_at))]
fn total_at(units: &UnitTable, price: f64) -> f64
    ensures { result ≡ total_at units.now price }
{
    let mut sum = 0.0;
    for i in 0..units.len() {
        sum += units.unit(i).output(price);
    }
    sum
}

// From the least of the units' costs at their lower limits to the greatest at their upper ones.
#[tactic(auto, unfolding(loops::specs::Loops::least_to, loops::specs::Loops::greatest_to, dispatch_defs::specs::Share::opening))]
fn opening(units: &UnitTable) -> Bracket
    ensures { result ≡ opening units.now }
{
    let mut lo = loops::infinity();
    let mut hi = -loops::infinity();
    for i in 0..units.len() {
        let unit = units.unit(i);
        lo = lesser(lo, unit.cost(unit.pmin));
        hi = greater(hi, unit.cost(unit.pmax));
    }
    Bracket { lo, hi }
}

// One halving: the middle becomes the lower end where the units give less than the demand there, else the upper end.
#[tactic(auto, unfolding(dispatch_defs::specs::Share::halved))]
fn halve(units: &UnitTable, demand: f64, b: Bracket) -> Bracket
    ensures { result ≡ halved units.now demand b }
{
    let mid = 0.5 * (b.lo + b.hi);
    if total_at(units, mid) < demand {
        Bracket { lo: mid, hi: b.hi }
    } else {
        Bracket { lo: b.lo, hi: mid }
    }
}

fn is_narrow(b: Bracket) -> bool
    ensures { result ≡ narrow b }
{
    b.hi - b.lo <= TOLERANCE * greater(1.0, magnitude(b.hi))
}

// The upper end of the bracket after at most 200 halvings.
pub fn price(units: &UnitTable, demand: f64) -> f64
    ensures { result ≡ price_of units.now demand }
{
    let mut b = opening(units);
    for _ in 0..HALVINGS {
        b = halve(units, demand, b);
        if is_narrow(b) {
            return b.hi;
        }
    }
    b.hi
}
