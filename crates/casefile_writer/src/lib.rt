// Writing a case file: the bytes of a case, put into a lent buffer. Document 01 lists no such operation; docs/DECISIONS.md says why it is public.
#![tactic(auto)]

ghost use Rattle.std.specs.Prelude.{true, ◌≡◌, ◌≤◌, length};
ghost use Rattle.casefile_defs.specs.Reading.{Small};
ghost use Rattle.casefile_defs.specs.Tables.{places_of, sizes_ok};
ghost use Rattle.casefile_theorems.specs.Cases.{longest};
ghost use Rattle.case_tables.specs.Tables.{tables_in};
ghost use Rattle.casefile_writer.specs.Files.{file_in};
ghost use Rattle.casefile_writer.specs.Put.{Put};

use bytes::Bytes;
use case_tables::Tables;
use casefile_defs::{
    CAPPED_CORRIDOR_BYTES, GENERATOR_BYTES, HEAD_BYTES, Header, LEVEL_BYTES, LINE_BYTES,
    MOST_BUSES, MOST_CORRIDORS, MOST_GENERATORS, MOST_LEVELS, WEIGHED_BUS_BYTES,
};
use record::{Bus, Corridor, Generator, Level, Record};
use table::{line_at, some_weight};

mod bytes;
mod record;
mod table;

// The longest file of a case.
pub const MOST_FILE: usize = HEAD_BYTES
    + MOST_LEVELS * LEVEL_BYTES
    + MOST_BUSES * WEIGHED_BUS_BYTES
    + MOST_GENERATORS * GENERATOR_BYTES
    + MOST_CORRIDORS * (CAPPED_CORRIDOR_BYTES + MOST_LEVELS * LINE_BYTES);

// The file of a case in tables of their largest size, with BV where a weight is not 1, and CP for the corridors that have a cap. Answers how
// long it is. Each slice is a parameter of its own, so that a caller need not copy what he has into `Tables`.
pub fn put_case_file(
    out: &mut [u8],
    h: Header,
    ladder: &[f64],
    tier: &[u32],
    reading: &[f64],
    weight: &[f64],
    bus: &[u32],
    slack: &[u32],
    pmin: &[f64],
    pmax: &[f64],
    c1: &[f64],
    c2: &[f64],
    a: &[u32],
    b: &[u32],
    circuits: &[u32],
    length_km: &[f64],
    share: &[f64],
    cap: &[u32],
    sheet: &[f64],
) -> usize
    requires longest_in_bounds { longest ≤ length out.old }
    requires small { Small h }
    requires sheet_value { sizes_ok (places_of ladder.now tier.now reading.now weight.now bus.now slack.now pmin.now pmax.now c1.now c2.now a.now b.now circuits.now length_km.now share.now cap.now sheet.now) ≡ true }
    ensures put { Put out.old 0 (file_in h (places_of ladder.now tier.now reading.now weight.now bus.now slack.now pmin.now pmax.now c1.now c2.now a.now b.now circuits.now length_km.now share.now cap.now sheet.now)) out.new result }
    ensures size { result ≤ longest }
{
    let levels = h.above + h.requested;
    let weighed = some_weight(h.buses, weight);
    let mut file = Bytes::new(out);
    h.put(&mut file);
    file.put_table(levels, |i| Level { kv: ladder[i] });
    file.put_table(
        h.buses,
        |i| Bus {
            weighed,
            tier: tier[i],
            reading: reading[i],
            weight: weight[i],
        },
    );
    file.put_table(
        h.generators,
        |i| Generator {
            bus: bus[i],
            slack: slack[i],
            pmin: pmin[i],
            pmax: pmax[i],
            c1: c1[i],
            c2: c2[i],
        },
    );
    file.put_table(
        h.corridors,
        |i| Corridor {
            a: a[i],
            b: b[i],
            circuits: circuits[i],
            length_km: length_km[i],
            share: share[i],
            cap: cap[i],
        },
    );
    file.put_table(h.corridors * levels, |i| {
        line_at(sheet, h.corridors, levels, i)
    });
    file.len()
}

// The same of tables in one struct.
pub fn put_tables(out: &mut [u8], h: Header, t: &Tables) -> usize
    requires longest_in_bounds { longest ≤ length out.old }
    requires small { Small h }
    ensures put { Put out.old 0 (file_in h (tables_in t.now)) out.new result }
    ensures size { result ≤ longest }
{
    put_case_file(
        out,
        h,
        &t.ladder,
        &t.tier,
        &t.reading,
        &t.weight,
        &t.bus,
        &t.slack,
        &t.pmin,
        &t.pmax,
        &t.c1,
        &t.c2,
        &t.a,
        &t.b,
        &t.circuits,
        &t.length_km,
        &t.share,
        &t.cap,
        &t.sheet,
    )
}
