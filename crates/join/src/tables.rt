// Filling the joined tables, kind by kind. The second's generators and corridors name buses that stand after n of the first's.
// Each column is lent by itself: of a struct that held the slices each contract would have to say that they are still the same, and as long.
ghost use Rattle.std.specs.Prelude.{[], ◌+◌, ◌≡◌, length};
ghost use Rattle.join_defs.specs.Columns.{figures, counts, joined_sheet};
ghost use Rattle.join.specs.Joins.{Raises, Rowed};

use crate::columns::{Sheets, append, append_raised, append_sheet};
use crate::district::District;

// The ladder is the first's.
pub fn put_buses(
    first: &District,
    second: &District,
    ladder: &mut [f64],
    tier: &mut [u32],
    reading: &mut [f64],
    weight: &mut [f64],
)
    ensures ladder { ladder.new ≡ figures (length ladder.old) first.now.ladder.now [] }
    ensures tier { tier.new ≡ counts (length tier.old) 0 first.now.tier.now second.now.tier.now }
    ensures reading { reading.new ≡ figures (length reading.old) first.now.reading.now second.now.reading.now }
    ensures weight { weight.new ≡ figures (length weight.old) first.now.weight.now second.now.weight.now }
{
    append(ladder, first.ladder, &[], 0.0);
    append(tier, first.tier, second.tier, 0);
    append(reading, first.reading, second.reading, 0.0);
    append(weight, first.weight, second.weight, 0.0);
}

pub fn put_generators(
    n: u32,
    first: &District,
    second: &District,
    bus: &mut [u32],
    slack: &mut [u32],
    pmin: &mut [f64],
    pmax: &mut [f64],
    c1: &mut [f64],
    c2: &mut [f64],
)
    requires { Raises n second.now.bus.now }
    ensures bus { bus.new ≡ counts (length bus.old) n first.now.bus.now second.now.bus.now }
    ensures slack { slack.new ≡ counts (length slack.old) 0 first.now.slack.now second.now.slack.now }
    ensures pmin { pmin.new ≡ figures (length pmin.old) first.now.pmin.now second.now.pmin.now }
    ensures pmax { pmax.new ≡ figures (length pmax.old) first.now.pmax.now second.now.pmax.now }
    ensures c1 { c1.new ≡ figures (length c1.old) first.now.c1.now second.now.c1.now }
    ensures c2 { c2.new ≡ figures (length c2.old) first.now.c2.now second.now.c2.now }
{
    append_raised(bus, first.bus, second.bus, n);
    append(slack, first.slack, second.slack, 0);
    append(pmin, first.pmin, second.pmin, 0.0);
    append(pmax, first.pmax, second.pmax, 0.0);
    append(c1, first.c1, second.c1, 0.0);
    append(c2, first.c2, second.c2, 0.0);
}

pub fn put_corridors(
    n: u32,
    first: &District,
    second: &District,
    a: &mut [u32],
    b: &mut [u32],
    circuits: &mut [u32],
    length_km: &mut [f64],
    share: &mut [f64],
    cap: &mut [u32],
    sheet: &mut [f64],
)
    requires raises { Raises n second.now.a.now }
    requires raises_2 { Raises n second.now.b.now }
    requires rowed { Rowed first.now.header.corridors second.now.header.corridors (first.now.header.above + first.now.header.requested) (length first.now.sheet.now) (length second.now.sheet.now) }
    ensures a { a.new ≡ counts (length a.old) n first.now.a.now second.now.a.now }
    ensures b { b.new ≡ counts (length b.old) n first.now.b.now second.now.b.now }
    ensures circuits { circuits.new ≡ counts (length circuits.old) 0 first.now.circuits.now second.now.circuits.now }
    ensures length_km { length_km.new ≡ figures (length length_km.old) first.now.length_km.now second.now.length_km.now }
    ensures share { share.new ≡ figures (length share.old) first.now.share.now second.now.share.now }
    ensures cap { cap.new ≡ counts (length cap.old) 0 first.now.cap.now second.now.cap.now }
    ensures sheet { sheet.new ≡ joined_sheet (length sheet.old) first.now.header.corridors second.now.header.corridors (first.now.header.above + first.now.header.requested) first.now.sheet.now second.now.sheet.now }
{
    let levels = first.header.above + first.header.requested;
    append_raised(a, first.a, second.a, n);
    append_raised(b, first.b, second.b, n);
    append(circuits, first.circuits, second.circuits, 0);
    append(length_km, first.length_km, second.length_km, 0.0);
    append(share, first.share, second.share, 0.0);
    append(cap, first.cap, second.cap, 0);
    let sheets = Sheets {
        m: first.header.corridors,
        o: second.header.corridors,
        n: levels,
        first: first.sheet,
        second: second.sheet,
    };
    append_sheet(sheet, &sheets);
}
