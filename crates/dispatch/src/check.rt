// The refusals 1, 2 and 5, in order.
ghost use Rattle.std.specs.Prelude.{◌≡◌, ℕ, true, length};
ghost use Rattle.dispatch_defs.specs.Operation.{lengths_ok, demand_ok, check_of};

use crate::table::UnitTable;
use loops::MOST_GENERATORS;
use refusal::Refusal;

const MOST_DEMAND: f64 = 1e9;

// 1.
pub fn lengths_ok(units: usize, pmin: usize, pmax: usize, c1: usize, c2: usize, mw: usize) -> bool
    ensures { result ≡ lengths_ok units pmin pmax c1 c2 mw }
{
    pmin == units && pmax == units && c1 == units && c2 == units && mw == units
}

fn demand_ok(demand: f64) -> bool
    ensures { result ≡ demand_ok demand }
{
    0.0 <= demand && demand <= MOST_DEMAND
}

// 2 and 5, of tables that 1 passes.
#[tactic(auto, using(loops::proofs::Scan::fault_some, loops::proofs::Scan::fault_passed), unfolding(dispatch_defs::specs::Operation::tests_of))]
pub fn check(units: usize, table: &UnitTable, demand: f64) -> Result<(), Refusal>
    ensures { (places : ℕ) → lengths_ok units (length table.now.pmin) (length table.now.pmax) (length table.now.c1) (length table.now.c2) places ≡ true → result ≡ check_of units table.now demand places }
{
    if units > MOST_GENERATORS {
        return Err(Refusal::Count);
    }
    if let Some(i) = table.faulty_unit() {
        return Err(Refusal::Generator(i));
    }
    if !demand_ok(demand) {
        return Err(Refusal::Demand);
    }
    Ok(())
}
