// The refusals, in order: 1 for the joined tables; 1 to 7 of the first case, then of the second; 2 for the sums; 24. They touch nothing.
ghost use Rattle.std.specs.Prelude.{◌≡◌, ◌+◌, leb};
ghost use Rattle.join_defs.specs.Districts.{same_ladder, check_of};
ghost use Rattle.join.specs.Joins.{case_of, sums_fit, heads_alike};

use crate::district::{District, check_district};
use casefile_defs::{Header, MOST_BUSES, MOST_CORRIDORS, MOST_GENERATORS};
use loops::{MOST_TARGET, first_fault};
use refusal::Refusal;

// The counts are as given, so that their sum may not fit: this asks without it.
fn sum_within(most: usize, x: usize, y: usize) -> bool
    ensures { result ≡ leb (x + y) most }
{
    x <= most && y <= most - x
}

fn sums_ok(first: Header, second: Header) -> bool
    ensures { result ≡ sums_fit first second }
{
    let buses = sum_within(MOST_BUSES, first.buses, second.buses);
    let corridors = sum_within(MOST_CORRIDORS, first.corridors, second.corridors);
    let generators = sum_within(MOST_GENERATORS, first.generators, second.generators);
    let targets = sum_within(
        MOST_TARGET as usize,
        first.target as usize,
        second.target as usize,
    );
    buses & (corridors & (generators & targets))
}

// Level by level, as the definition has it: the clause of `x == y` speaks of lists in step, and a law would have to tie the two.
fn same_ladder(x: &[f64], y: &[f64]) -> bool
    ensures { result ≡ same_ladder x.now y.now }
{
    if x.len() != y.len() {
        return false;
    }
    first_fault(x.len(), |i| x[i] == y[i]).is_none()
}

fn alike(first: Header, second: Header) -> bool
    ensures { result ≡ heads_alike first second }
{
    (first.mode == second.mode) & (first.requested == second.requested)
}

pub fn check_both(fits: bool, first: &District, second: &District) -> Result<(), Refusal>
    ensures { result ≡ check_of fits (case_of first.now) first.now.header.target (case_of second.now) second.now.header.target }
{
    check_district(fits, first)?;
    check_district(true, second)?;
    if !sums_ok(first.header, second.header) {
        return Err(Refusal::Count);
    }
    if !(alike(first.header, second.header) & same_ladder(first.ladder, second.ladder)) {
        return Err(Refusal::Districts);
    }
    Ok(())
}
