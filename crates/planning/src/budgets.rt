// The budgets of stiffening, and what it adds up.
ghost use Rattle.std.specs.Prelude.{◌≡◌, ◌≤◌, false, length};
ghost use Rattle.plan_defs.specs.Constants.{most_buses, most_levels, stiffening_branch_budget};
ghost use Rattle.plan_defs.specs.Lists.{sum};
ghost use Rattle.plan_defs.specs.Raise.{no_marks};
ghost use Rattle.plan_defs.specs.Stiffen.{at_or_above, share_of, hv_budget, stiffen_top};
ghost use Rattle.planning.specs.Fill.{Counted};
ghost use Rattle.planning.specs.Stiffen.{budget_for};

use crate::fill::total;
use std::num::saturating_f64_to_usize;

// The share of buses at or above the top, and circuits for each bus, up to which stiffening goes.
const STIFFENING_HV_SHARE: f64 = 0.35;

const STIFFENING_BRANCH_BUDGET: f64 = 1.6;

// The budgets of stiffening.
#[derive(Clone, Copy)]
pub struct Limits {
    // Buses at or above `top`, circuits in all, and the highest level to raise to.
    pub hv: usize,
    pub branches: usize,
    pub top: u32,
}

// What stiffening adds up.
#[derive(Clone, Copy)]
pub struct StiffeningTally {
    // Circuits in all; buses at or above the top, an end again for each corridor that marks it; circuits that stiffening added so far.
    pub total: u32,
    pub hv: u32,
    pub stiffening: u32,
    // Whether a component was too wide, and whether anything was done.
    pub wide: bool,
    pub stiffened: bool,
}

// That `level` has at most `most_buses` places five functions ask, one of them in raise_marks.rt: no struct holds it there, since the raises of
// a round write it.
fn at_or_above(level: &[u32], top: u32) -> u32
    requires { length level.now ≤ most_buses }
    ensures { result ≡ at_or_above level.now top }
{
    level.iter().filter(|own| **own <= top).count() as u32
}

// The product rounded, then floored.
fn share_of(share: f64, n: u32) -> usize
    ensures { result ≡ share_of share n }
{
    saturating_f64_to_usize(share * n as f64)
}

// Of the requested levels the highest, until their share of buses is there; then, where there are levels above, the highest of all.
fn top_of(above: u32, hv: usize, level: &[u32]) -> u32
    requires { length level.now ≤ most_buses }
    ensures { result ≡ stiffen_top above hv level.now }
{
    if (above > 0) & (hv <= at_or_above(level, above) as usize) {
        0
    } else {
        above
    }
}

pub fn limits_of(above: usize, level: &[u32]) -> Limits
    requires { (length level.now ≤ most_buses) × (above ≤ most_levels) }
    ensures { budget_for result ≡ record { hv = hv_budget (length level.now); branches = share_of stiffening_branch_budget (length level.now); top = stiffen_top above (hv_budget (length level.now)) level.now } }
{
    let n = level.len() as u32;
    let hv = share_of(STIFFENING_HV_SHARE, n);
    let branches = share_of(STIFFENING_BRANCH_BUDGET, n);
    let top = top_of(above as u32, hv, level);
    Limits { hv, branches, top }
}

pub fn first_tally(
    g: Limits,
    level: &[u32],
    circuits: &[u32],
    stiffening: u32,
    marks: &mut [u32],
) -> StiffeningTally
    requires { (length level.now ≤ most_buses) × (length marks.old ≡ length level.now) × Counted circuits.now }
    ensures marks { marks.new ≡ no_marks (length level.now) }
    ensures start { result ≡ record { total = sum circuits.now; hv = at_or_above level.now g.top; stiffening = stiffening; wide = false; stiffened = false } }
{
    marks.fill(0);
    let circuits_now = total(circuits);
    let hv = at_or_above(level, g.top);
    StiffeningTally {
        total: circuits_now,
        hv,
        stiffening,
        wide: false,
        stiffened: false,
    }
}
