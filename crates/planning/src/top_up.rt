// What a component's units give: by the dispatch, and in a mode that tops up by a pass after it (document 02, K4). By c1 rising, then
// index, a unit takes what all of them leave of the demand, up to its pmax; the first left below pmax is the last.
ghost use Rattle.std.specs.Prelude.{◌≡◌, ◌≤◌, length};
ghost use Rattle.dispatch_defs.specs.Units.{units_of};
ghost use Rattle.dispatch_defs.specs.Limits.{Accepted};
ghost use Rattle.plan_defs.specs.Constants.{most_generators};
ghost use Rattle.plan_defs.specs.Case.{tops_up};
ghost use Rattle.plan_defs.specs.TopUp.{by_cost, top_up};
ghost use Rattle.planning.specs.Opening.{stage_of, Priced, given_stage};

use crate::keys::Keys;
use crate::policy::tops_up;
use arrayvec::ArrayVec;
use loops::{MOST_CORRIDORS, MOST_GENERATORS, lesser, sum};
use mode::PlanMode;
use refusal::Refusal;

// By c1 rising, then index: in the first two keys the units are alike.
fn order_costs(c1: &[f64]) -> ArrayVec<u32, MOST_CORRIDORS>
    requires { length c1.now ≤ most_generators }
    ensures { result.items ≡ by_cost c1.now }
{
    let alike = [0.0; MOST_GENERATORS];
    let alike = &alike[..c1.len()];
    let keys = Keys {
        first: alike,
        second: alike,
        third: c1,
    };
    keys.order()
}

// The pass. The sum is by index, as the dispatch adds. The difference is worked out afresh for each unit; where it is not above zero there is nothing left to serve.
fn top_up(demand: f64, pmax: &[f64], c1: &[f64], mw: &mut [f64])
    requires { Priced pmax.now c1.now mw.old }
    ensures { mw.new ≡ top_up pmax.now demand (by_cost c1.now) mw.old }
{
    let order = order_costs(c1);
    for unit in order.as_slice() {
        let k = *unit as usize;
        let gap = demand - sum(mw);
        if !(0.0 < gap) {
            return;
        }
        let served = lesser(pmax[k], mw[k] + gap);
        mw[k] = served;
        if served < pmax[k] {
            return;
        }
    }
}

// What the units give, MW; or refusal 8, which names one of them.
pub fn give(
    mode: PlanMode,
    demand: f64,
    pmin: &[f64],
    pmax: &[f64],
    c1: &[f64],
    c2: &[f64],
    mw: &mut [f64],
) -> Result<(), Refusal>
    requires { Accepted (length pmin.now) (units_of pmin.now pmax.now c1.now c2.now) demand (length mw.old) }
    ensures { stage_of result mw.new ≡ given_stage (tops_up mode) (units_of pmin.now pmax.now c1.now c2.now) demand }
{
    dispatch::economic_dispatch(pmin.len(), pmin, pmax, c1, c2, demand, mw).map_err(
        |f| Refusal::Cost(f.index()),
    )?;
    if tops_up(mode) {
        top_up(demand, pmax, c1, mw);
    }
    Ok(())
}
