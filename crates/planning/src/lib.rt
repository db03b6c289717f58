// Planning of a transmission network's corridors, after `plan_corridors` of planning.rs (document 01, *Planning*).
#![tactic(auto)]

ghost use Rattle.std.specs.Prelude.{◌≡◌, Ok, Result};
ghost use Rattle.plan_defs.specs.Case.{surveyed};
ghost use Rattle.plan_defs.specs.Outcome.{slices, outcome, plan_corridors};
ghost use Rattle.plan_defs.specs.Demand.{AnswerTo};
ghost use Rattle.plan_defs.specs.Preview.{kept_as, outcome as outcome_of, preview as preview_of};
ghost use Rattle.plan_defs.specs.declared.CorridorPlan.{CorridorPlan};

use acceptance::check_case;
use lent::LentPlaces;
pub use lent::WORK_ROWS;
use loads::weigh;
use mode::PlanMode;
use plan_defs::CorridorPlan;
use policy::promotes;
use refusal::Refusal;
use tables::{Grid, Supply};

mod budgets;
mod candidates;
mod close;
mod design;
mod edges;
mod figures;
mod fill;
mod finish;
mod keys;
mod lent;
mod opening;
mod plan;
mod policy;
mod preview;
mod raise_marks;
mod raise_passes;
mod redesign;
mod rounds;
mod size;
mod solve;
mod solved;
mod stiffen;
mod stiffen_corridor;
mod tables;
mod top_up;

// The circuits of each corridor, with their flows and ratings, the dispatch, the angles, the tiers, the grounds and the levels added,
// for a case of n buses, m corridors and g generators. A bus's load is its reading times its weight, rounded once; `cap` has the
// corridors' own caps, 0 for none. `before` and `order` are what a plan keeps of filling, also where nothing is filled: the circuits
// with which it begins and the order of the corridors; zero in a mode that does not fill. `kept_cap` keeps the own caps, in every
// mode. Refusals 1 to 7 touch nothing; after 8 and 9 every place is zero; after an answer the work, `figures` and `counts`, is zero.
pub fn plan_corridors(
    mode: PlanMode,
    target: u32,
    n: usize,
    m: usize,
    g: usize,
    above: usize,
    requested: usize,
    ladder: &[f64],
    tier: &[u32],
    reading: &[f64],
    weight: &[f64],
    bus: &[u32],
    slack: &[u32],
    pmin: &[f64],
    pmax: &[f64],
    c1: &[f64],
    c2: &[f64],
    a: &[u32],
    b: &[u32],
    initial: &[u32],
    km: &[f64],
    share: &[f64],
    cap: &[u32],
    sheet: &[f64],
    circuits: &mut [u32],
    flow: &mut [f64],
    rate: &mut [f64],
    before: &mut [u32],
    order: &mut [u32],
    kept_cap: &mut [u32],
    mw: &mut [f64],
    angle: &mut [f64],
    final_tier: &mut [u32],
    ground: &mut [u32],
    added: &mut [f64],
    figures: &mut [f64],
    counts: &mut [u32],
) -> Result<CorridorPlan, Refusal>
    ensures plan { outcome result (slices circuits.new flow.new rate.new before.new order.new kept_cap.new mw.new angle.new final_tier.new ground.new added.new figures.new counts.new)
        ≡ plan_corridors (surveyed mode n m g above requested ladder.now tier.now reading.now weight.now bus.now slack.now pmin.now pmax.now c1.now c2.now a.now b.now initial.now km.now share.now cap.now sheet.now) target
        (slices circuits.old flow.old rate.old before.old order.old kept_cap.old mw.old angle.old final_tier.old ground.old added.old figures.old counts.old) }
    ensures demand { (x : CorridorPlan) → result ≡ Ok x → AnswerTo (surveyed mode n m g above requested ladder.now tier.now reading.now weight.now bus.now slack.now pmin.now pmax.now c1.now c2.now a.now b.now initial.now km.now share.now cap.now sheet.now) target
        (outcome result (slices circuits.new flow.new rate.new before.new order.new kept_cap.new mw.new angle.new final_tier.new ground.new added.new figures.new counts.new)) x }
{
    let places = LentPlaces {
        circuits: circuits.len(),
        flow: flow.len(),
        rate: rate.len(),
        before: before.len(),
        order: order.len(),
        cap: kept_cap.len(),
        mw: mw.len(),
        angle: angle.len(),
        tier: final_tier.len(),
        ground: ground.len(),
        added: added.len(),
        figures: figures.len(),
        counts: counts.len(),
    };
    let fits = lent::places_ok(n, m, g, above, places);
    check_case(
        fits, target, n, m, g, above, requested, ladder, tier, reading, weight, bus, slack, pmin,
        pmax, c1, c2, a, b, initial, km, share, cap, sheet,
    )?;
    let load = weigh(reading, weight);
    let grid = Grid {
        ladder,
        a,
        b,
        km,
        share,
        cap,
        sheet,
    };
    let supply = Supply {
        load: &load[0..n],
        bus,
        slack,
        pmin,
        pmax,
        c1,
        c2,
    };
    match plan::run(
        mode, target, above, &grid, tier, &supply, initial, circuits, flow, rate, mw, angle,
        final_tier, ground, added, figures, counts,
    ) {
        Ok(ran) => {
            let fills = promotes(mode);
            close::keep_if(fills, &ran.kept.before, before);
            close::keep_if(fills, &ran.kept.order, order);
            kept_cap.copy_from_slice(cap);
            figures.fill(0.0);
            counts.fill(0);
            Ok(ran.plan)
        }
        Err(f) => {
            close::clear(
                circuits, flow, rate, before, order, kept_cap, mw, angle, final_tier, ground,
                added, figures, counts,
            );
            Err(f)
        }
    }
}

// The circuits that each of m corridors of a plan would have with another target, from what the plan keeps (`before`, `order` and
// `kept_cap` of `plan_corridors`). A refusal touches nothing.
#[tactic(auto, using(crate::proofs::Previews::refillable), unfolding(plan_defs::specs::Preview::preview, plan_defs::specs::Preview::refilled))]
pub fn preview_filling(
    mode: PlanMode,
    target: u32,
    m: usize,
    before: &[u32],
    order: &[u32],
    cap: &[u32],
    circuits: &mut [u32],
) -> Result<(), Refusal>
    ensures { outcome_of result circuits.new ≡ preview_of (kept_as mode m before.now order.now cap.now) target circuits.old }
{
    preview::check(mode, target, m, before, order, cap, circuits.len())?;
    preview::refill(mode, target, before, order, cap, circuits);
    Ok(())
}
