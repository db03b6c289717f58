// Two survey districts in one case (document 02, K10): the joined case, in tables lent as for case reading.
#![tactic(auto)]

ghost use Rattle.std.specs.Prelude.{◌≡◌};
ghost use Rattle.casefile_defs.specs.Tables.{places_of};
ghost use Rattle.join_defs.specs.Joining.{outcome, join_cases};
ghost use Rattle.join.specs.Joins.{Summed, headers_of};

use casefile_defs::{Header, tables_sized};
use check::check_both;
use district::District;
use refusal::Refusal;
use tables::{put_buses, put_corridors, put_generators};

mod check;
mod columns;
mod district;
mod tables;

// The first's mode and levels, and the counts and targets added.
fn joined_header(first: Header, second: Header) -> Header
    requires { Summed first second }
    ensures { result ≡ headers_of first second }
{
    Header {
        mode: first.mode,
        target: first.target + second.target,
        buses: first.buses + second.buses,
        corridors: first.corridors + second.corridors,
        generators: first.generators + second.generators,
        above: first.above,
        requested: first.requested,
    }
}

// Puts two cases, each in tables of exactly its counts, into one: the second's buses, generators and corridors follow the first's. The
// joined tables are lent at their largest size. A refusal touches nothing; an answer fills every place, zero past the counts.
// Each slice is a parameter of its own, as the project's scope lists them.
pub fn join_cases(
    first: Header,
    first_ladder: &[f64],
    first_tier: &[u32],
    first_reading: &[f64],
    first_weight: &[f64],
    first_bus: &[u32],
    first_slack: &[u32],
    first_pmin: &[f64],
    first_pmax: &[f64],
    first_c1: &[f64],
    first_c2: &[f64],
    first_a: &[u32],
    first_b: &[u32],
    first_circuits: &[u32],
    first_length_km: &[f64],
    first_share: &[f64],
    first_cap: &[u32],
    first_sheet: &[f64],
    second: Header,
    second_ladder: &[f64],
    second_tier: &[u32],
    second_reading: &[f64],
    second_weight: &[f64],
    second_bus: &[u32],
    second_slack: &[u32],
    second_pmin: &[f64],
    second_pmax: &[f64],
    second_c1: &[f64],
    second_c2: &[f64],
    second_a: &[u32],
    second_b: &[u32],
    second_circuits: &[u32],
    second_length_km: &[f64],
    second_share: &[f64],
    second_cap: &[u32],
    second_sheet: &[f64],
    ladder: &mut [f64],
    tier: &mut [u32],
    reading: &mut [f64],
    weight: &mut [f64],
    bus: &mut [u32],
    slack: &mut [u32],
    pmin: &mut [f64],
    pmax: &mut [f64],
    c1: &mut [f64],
    c2: &mut [f64],
    a: &mut [u32],
    b: &mut [u32],
    circuits: &mut [u32],
    length_km: &mut [f64],
    share: &mut [f64],
    cap: &mut [u32],
    sheet: &mut [f64],
) -> Result<Header, Refusal>
    ensures { outcome result (places_of ladder.new tier.new reading.new weight.new bus.new slack.new pmin.new pmax.new c1.new c2.new a.new b.new circuits.new length_km.new share.new cap.new sheet.new) ≡ join_cases first (places_of first_ladder.now first_tier.now first_reading.now first_weight.now first_bus.now first_slack.now first_pmin.now first_pmax.now first_c1.now first_c2.now first_a.now first_b.now first_circuits.now first_length_km.now first_share.now first_cap.now first_sheet.now) second (places_of second_ladder.now second_tier.now second_reading.now second_weight.now second_bus.now second_slack.now second_pmin.now second_pmax.now second_c1.now second_c2.now second_a.now second_b.now second_circuits.now second_length_km.now second_share.now second_cap.now second_sheet.now) (places_of ladder.old tier.old reading.old weight.old bus.old slack.old pmin.old pmax.old c1.old c2.old a.old b.old circuits.old length_km.old share.old cap.old sheet.old) }
{
    let one = District {
        header: first,
        ladder: first_ladder,
        tier: first_tier,
        reading: first_reading,
        weight: first_weight,
        bus: first_bus,
        slack: first_slack,
        pmin: first_pmin,
        pmax: first_pmax,
        c1: first_c1,
        c2: first_c2,
        a: first_a,
        b: first_b,
        circuits: first_circuits,
        length_km: first_length_km,
        share: first_share,
        cap: first_cap,
        sheet: first_sheet,
    };
    let other = District {
        header: second,
        ladder: second_ladder,
        tier: second_tier,
        reading: second_reading,
        weight: second_weight,
        bus: second_bus,
        slack: second_slack,
        pmin: second_pmin,
        pmax: second_pmax,
        c1: second_c1,
        c2: second_c2,
        a: second_a,
        b: second_b,
        circuits: second_circuits,
        length_km: second_length_km,
        share: second_share,
        cap: second_cap,
        sheet: second_sheet,
    };
    let sized = tables_sized(
        ladder, tier, reading, weight, bus, slack, pmin, pmax, c1, c2, a, b, circuits, length_km,
        share, cap, sheet,
    );
    check_both(sized, &one, &other)?;
    let n = first.buses as u32;
    put_buses(&one, &other, ladder, tier, reading, weight);
    put_generators(n, &one, &other, bus, slack, pmin, pmax, c1, c2);
    put_corridors(
        n, &one, &other, a, b, circuits, length_km, share, cap, sheet,
    );
    Ok(joined_header(first, second))
}
