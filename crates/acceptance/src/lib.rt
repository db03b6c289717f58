// Acceptance of a case: document 01's refusals 1 to 7 of *Planning*, in order, for every operation that takes a case (document 02).
#![tactic(auto)]

ghost use Rattle.std.specs.Prelude.{◌≡◌};
ghost use Rattle.acceptance.specs.Check.{tables_for, check_of};

use lengths::{levels_ok, sized};
use refusal::Refusal;
use sheets::sheet_ok;
use tables::CaseTables;

mod lengths;
mod tables;

// The first of 1 to 7 that a case of n buses, m corridors and g generators has, in any mode. `fits` says that the slices which the caller
// itself is lent have their lengths: 1 is one test. A NaN fails every test.
// Each slice is a parameter of its own: a public function may ask no more of its callers, who would have a struct to build.
pub fn check_case(
    fits: bool,
    target: u32,
    n: usize,
    m: usize,
    g: usize,
    above: usize,
    requested: usize,
    ladder: &[f64],
    tier: &[u32],
    reading: &[f64],
    weight: &[f64],
    bus: &[u32],
    slack: &[u32],
    pmin: &[f64],
    pmax: &[f64],
    c1: &[f64],
    c2: &[f64],
    a: &[u32],
    b: &[u32],
    initial: &[u32],
    km: &[f64],
    share: &[f64],
    cap: &[u32],
    sheet: &[f64],
) -> Result<(), Refusal>
    ensures { result ≡ check_of fits (tables_for n m g above requested ladder.now tier.now reading.now weight.now bus.now slack.now pmin.now pmax.now c1.now c2.now a.now b.now initial.now km.now share.now cap.now sheet.now) target }
{
    let levels = levels_ok(ladder.len(), above, requested);
    let buses = sized(&[tier.len(), reading.len(), weight.len()], n);
    let generators = sized(
        &[
            bus.len(),
            slack.len(),
            pmin.len(),
            pmax.len(),
            c1.len(),
            c2.len(),
        ],
        g,
    );
    let corridors = sized(
        &[
            a.len(),
            b.len(),
            initial.len(),
            km.len(),
            share.len(),
            cap.len(),
        ],
        m,
    );
    let rows = sheet_ok(sheet.len(), m, ladder.len());
    // by `&`: the proof then has one value, and not a branch for each test
    let lengths = levels & buses & generators & corridors & rows;
    if !(lengths & fits) {
        return Err(Refusal::Length);
    }
    let case = CaseTables {
        buses: n,
        corridors: m,
        generators: g,
        above,
        requested,
        ladder,
        tier,
        reading,
        weight,
        bus,
        slack,
        pmin,
        pmax,
        c1,
        c2,
        a,
        b,
        initial,
        km,
        share,
        cap,
        sheet,
    };
    case.check(target)
}
