// The preview of a filling (document 02, K1): its refusals, in order, and the circuits for a target from what a plan keeps.
ghost use Rattle.std.specs.Prelude.{◌≡◌, ◌≤◌, true, ◌&&◌, length, nat_le};
ghost use Rattle.loops.specs.Loops.{fault};
ghost use Rattle.plan_defs.specs.Case.{promote};
ghost use Rattle.plan_defs.specs.Constants.{most_corridors, most_initial, most_cap};
ghost use Rattle.plan_defs.specs.Preview.{kept_as, count_ok, place_ok, preview_check, refilled};
ghost use Rattle.planning.specs.Preview.{counts_for, order_for, Refillable};

use crate::fill::fill;
use crate::policy::promotes;
use loops::{MOST_CAP, MOST_CORRIDORS, MOST_INITIAL, MOST_TARGET};
use mode::PlanMode;
use refusal::Refusal;

// ---- 6: the first corridor whose kept count is outside 1 to 64, or whose cap is above 6
fn count_ok(count: u32, cap: u32) -> bool
    ensures { result ≡ (nat_le 1 count && (nat_le count most_initial && nat_le cap most_cap)) }
{
    (1 <= count) & ((count <= MOST_INITIAL) & (cap <= MOST_CAP))
}

fn faulty_count(before: &[u32], cap: &[u32]) -> Option<usize>
    requires { length cap.now ≡ length before.now }
    ensures { result ≡ fault (count_ok (counts_for before.now cap.now)) (length before.now) }
{
    loops::first_fault(before.len(), |k| count_ok(before[k], cap[k]))
}

// ---- 30: the first place that names no corridor, or one again
// Whether a place has named it is kept of each corridor, so that each place is looked at once.
fn faulty_place(order: &[u32]) -> Option<usize>
    requires { length order.now ≤ most_corridors }
    ensures { result ≡ fault (place_ok (order_for order.now)) (length order.now) }
{
    let mut named = [false; MOST_CORRIDORS];
    for (j, own) in order.iter().enumerate() {
        let corridor = *own as usize;
        if corridor >= order.len() || named[corridor] {
            return Some(j);
        }
        named[corridor] = true;
    }
    None
}

// ---- all of them
#[tactic(auto, using(loops::proofs::Scan::fault_some, loops::proofs::Scan::fault_passed, crate::proofs::Previews::counts_scan, crate::proofs::Previews::places_scan), unfolding(plan_defs::specs::Preview::preview_tests, plan_defs::specs::Preview::lengths_ok))]
pub fn check(
    mode: PlanMode,
    target: u32,
    m: usize,
    before: &[u32],
    order: &[u32],
    cap: &[u32],
    places: usize,
) -> Result<(), Refusal>
    ensures { result ≡ preview_check (kept_as mode m before.now order.now cap.now) target places }
{
    if !((before.len() == m) & ((order.len() == m) & ((cap.len() == m) & (places == m)))) {
        return Err(Refusal::Length);
    }
    if !((m <= MOST_CORRIDORS) & (target <= MOST_TARGET)) {
        return Err(Refusal::Count);
    }
    if !promotes(mode) {
        return Err(Refusal::Mode);
    }
    if let Some(k) = faulty_count(before, cap) {
        return Err(Refusal::Corridor(k));
    }
    if let Some(j) = faulty_place(order) {
        return Err(Refusal::Order(j));
    }
    Ok(())
}

// ---- the circuits for a target
#[tactic(auto, unfolding(plan_defs::specs::Preview::refilled, plan_defs::specs::Fill::fill, plan_defs::specs::Case::full_at))]
pub fn refill(
    mode: PlanMode,
    target: u32,
    before: &[u32],
    order: &[u32],
    cap: &[u32],
    circuits: &mut [u32],
)
    requires { (promote mode ≡ true) × Refillable before.now order.now cap.now circuits.old }
    ensures { circuits.new ≡ refilled (kept_as mode (length before.now) before.now order.now cap.now) target }
{
    circuits.copy_from_slice(before);
    fill(mode, target, cap, order, circuits);
}
