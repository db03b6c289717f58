// Economic dispatch: units share a demand at one price, each within its limits. After `economic_dispatch`, electrical/planning.rs.
#![tactic(auto)]

ghost use Rattle.std.specs.Prelude.{◌≡◌, length};
ghost use Rattle.dispatch_defs.specs.Units.{units_of, count};
ghost use Rattle.dispatch_defs.specs.Operation.{outcome, shared_out, dispatched};

use check::{check, lengths_ok};
use loops::sum;
use refusal::Refusal;
use share::share;
use table::UnitTable;

mod check;
mod price;
mod share;
mod table;
mod unit;

// Not by `copy_from_slice`, with which the archive for C would need `memmove` from outside.
fn copy(from: &[f64], to: &mut [f64])
    requires { length to.old ≡ length from.now }
    ensures { to.new ≡ from.now }
{
    loops::fill(to, |i| from[i]);
}

// The dispatch of sound units, or refusal 8.
#[tactic(auto, using(loops::proofs::Scan::fault_some, loops::proofs::Scan::fault_passed, dispatch_defs::proofs::SharingOut::share_out_answered, dispatch_defs::proofs::SharingOut::share_out_refused, dispatch_defs::proofs::SharingOut::stands_most, dispatch_defs::proofs::SharingOut::stands_least, dispatch_defs::proofs::SharingOut::stands_between), unfolding(dispatch_defs::specs::Dispatch::infinite_cost, dispatch_defs::specs::Dispatch::faulty_cost_at, dispatch_defs::specs::Dispatch::dispatch_at))]
fn share_out(units: &UnitTable, demand: f64, mw: &mut [f64]) -> Result<(), Refusal>
    requires { length mw.old ≡ count units.now }
    ensures { outcome result mw.new ≡ shared_out units.now demand mw.old }
{
    if demand >= sum(units.pmax) {
        copy(units.pmax, mw);
        return Ok(());
    }
    if demand <= sum(units.pmin) {
        copy(units.pmin, mw);
        return Ok(());
    }
    if let Some(i) = units.infinite_cost() {
        return Err(Refusal::Cost(i));
    }
    share(units, demand, mw);
    Ok(())
}

// Leaves in `mw` what each unit gives of the demand; where the request is refused, `mw` keeps its contents.
#[tactic(auto, using(dispatch_defs::proofs::Checks::passes, dispatch_defs::proofs::Checks::even, dispatch_defs::proofs::Checks::check_length, dispatch_defs::proofs::SharingOut::dispatch_refused, dispatch_defs::proofs::SharingOut::dispatch_shared_out))]
pub fn economic_dispatch(
    units: usize,
    pmin: &[f64],
    pmax: &[f64],
    c1: &[f64],
    c2: &[f64],
    demand: f64,
    mw: &mut [f64],
) -> Result<(), Refusal>
    ensures { outcome result mw.new
        ≡ dispatched units (units_of pmin.now pmax.now c1.now c2.now) demand mw.old }
{
    if !lengths_ok(units, pmin.len(), pmax.len(), c1.len(), c2.len(), mw.len()) {
        return Err(Refusal::Length);
    }
    let table = UnitTable { pmin, pmax, c1, c2 };
    check(units, &table, demand)?;
    share_out(&table, demand, mw)
}
