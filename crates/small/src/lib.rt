// The small networks in order (document 02, K9): the case of a place, in tables lent as for case reading.
#![tactic(auto)]

ghost use Rattle.std.specs.Prelude.{◌≡◌};
ghost use Rattle.casefile_defs.specs.Tables.{places_of};
ghost use Rattle.small_defs.specs.Tables.{made, small_network};

use casefile_defs::{Header, ROW_FIGURES, tables_sized};
use loops::fill_first;
use refusal::Refusal;

mod order;
mod tables;

// How many networks there are.
const PLACES: usize = 74;

// Puts the small network of a place into the lent tables, each of its largest size.
// Each slice is a parameter of its own, as the project's scope lists them.
pub fn small_network(
    place: usize,
    ladder: &mut [f64],
    tier: &mut [u32],
    reading: &mut [f64],
    weight: &mut [f64],
    generator_bus: &mut [u32],
    slack: &mut [u32],
    pmin: &mut [f64],
    pmax: &mut [f64],
    c1: &mut [f64],
    c2: &mut [f64],
    a: &mut [u32],
    b: &mut [u32],
    circuits: &mut [u32],
    length_km: &mut [f64],
    share: &mut [f64],
    cap: &mut [u32],
    sheet: &mut [f64],
) -> Result<Header, Refusal>
    ensures { made result (places_of ladder.new tier.new reading.new weight.new generator_bus.new slack.new pmin.new pmax.new c1.new c2.new a.new b.new circuits.new length_km.new share.new cap.new sheet.new) ≡ small_network place (places_of ladder.old tier.old reading.old weight.old generator_bus.old slack.old pmin.old pmax.old c1.old c2.old a.old b.old circuits.old length_km.old share.old cap.old sheet.old) }
{
    let sized = tables_sized(
        ladder,
        tier,
        reading,
        weight,
        generator_bus,
        slack,
        pmin,
        pmax,
        c1,
        c2,
        a,
        b,
        circuits,
        length_km,
        share,
        cap,
        sheet,
    );
    if !sized {
        return Err(Refusal::Length);
    }
    if PLACES <= place {
        return Err(Refusal::Place);
    }
    let s = order::network_at(place);
    let m = tables::corridor_count(s.corridors);
    // The ladder of one level, and the buses at it. A load's weight is 1, so its reading is the load.
    fill_first(ladder, 1, 0.0, |_| tables::KV);
    tier.fill(0);
    fill_first(reading, s.buses, 0.0, |i| tables::load(s.loads, i));
    fill_first(weight, s.buses, 0.0, |_| 1.0);
    // The slack generator at bus 0.
    generator_bus.fill(0);
    fill_first(slack, 1, 0, |_| 1);
    pmin.fill(0.0);
    fill_first(pmax, 1, 0.0, |_| tables::PMAX);
    fill_first(c1, 1, 0.0, |_| tables::C1);
    fill_first(c2, 1, 0.0, |_| tables::C2);
    // The corridors, which have no caps, and a row of the sheet for each.
    fill_first(a, m, 0, |i| tables::ends(s.corridors, i).0);
    fill_first(b, m, 0, |i| tables::ends(s.corridors, i).1);
    fill_first(circuits, m, 0, |_| 1);
    fill_first(length_km, m, 0.0, |_| tables::LENGTH);
    fill_first(share, m, 0.0, |_| 1.0);
    cap.fill(0);
    fill_first(sheet, m * ROW_FIGURES, 0.0, |i| {
        tables::row_figure(i % ROW_FIGURES)
    });
    Ok(tables::header_of(s))
}
