// Case reading: the bytes of a case file into tables (document 01, "Case file" and "Case reading"); and a file's buses in the other form (document 02, K7).
#![tactic(auto)]

ghost use Rattle.std.specs.Prelude.{◌≡◌};
ghost use Rattle.casefile_defs.specs.Tables.{outcome, places_of, read_case};
ghost use Rattle.casefile_defs.specs.Moving.{moved_as, move_forward, move_back};

use casefile_defs::{CaseRead, HEAD_BYTES, Header, Kind, Wanted, tables_sized};
use mode::PlanMode;
use refusal::Refusal;

mod bytes;
mod columns;
mod moving;
mod record;
mod scan;
mod tables;

// The counts that a refused reading leaves in the tables.
pub const NOTHING: Header = Header {
    mode: PlanMode::Expand,
    target: 0,
    buses: 0,
    corridors: 0,
    generators: 0,
    above: 0,
    requested: 0,
};

// Reads a case file into the lent tables, each of its largest size.
// Each slice is a parameter of its own, as the project's scope lists them.
pub fn read_case(
    file: &[u8],
    ladder: &mut [f64],
    tier: &mut [u32],
    reading: &mut [f64],
    weight: &mut [f64],
    generator_bus: &mut [u32],
    slack: &mut [u32],
    pmin: &mut [f64],
    pmax: &mut [f64],
    c1: &mut [f64],
    c2: &mut [f64],
    a: &mut [u32],
    b: &mut [u32],
    circuits: &mut [u32],
    length_km: &mut [f64],
    share: &mut [f64],
    cap: &mut [u32],
    sheet: &mut [f64],
) -> CaseRead
    ensures { outcome result (places_of ladder.new tier.new reading.new weight.new generator_bus.new slack.new pmin.new pmax.new c1.new c2.new a.new b.new circuits.new length_km.new share.new cap.new sheet.new) ≡ read_case file.now (places_of ladder.old tier.old reading.old weight.old generator_bus.old slack.old pmin.old pmax.old c1.old c2.old a.old b.old circuits.old length_km.old share.old cap.old sheet.old) }
{
    let sized = tables_sized(
        ladder,
        tier,
        reading,
        weight,
        generator_bus,
        slack,
        pmin,
        pmax,
        c1,
        c2,
        a,
        b,
        circuits,
        length_km,
        share,
        cap,
        sheet,
    );
    if !sized {
        return CaseRead {
            reading: Err(Refusal::Length),
            looks: 0,
        };
    }
    let read = scan::read_as(file, Wanted::Either);
    let h = read.reading.unwrap_or(NOTHING);
    let levels = h.above + h.requested;
    let buses = tables::read_levels(file, HEAD_BYTES, levels, ladder);
    let generators = tables::read_buses(file, buses, h.buses, tier, reading, weight);
    let corridors = tables::read_generators(
        file,
        generators,
        h.generators,
        generator_bus,
        slack,
        pmin,
        pmax,
        c1,
        c2,
    );
    let lines = tables::read_corridors(
        file,
        corridors,
        h.corridors,
        a,
        b,
        circuits,
        length_km,
        share,
        cap,
    );
    tables::read_lines(file, lines, h.corridors, levels, sheet);
    read
}

// A file of BU as one of BV: each load a reading of weight 1.
#[tactic(auto, using(crate::proofs::Moves::is_moved_forward))]
pub fn move_forward(file: &[u8], out: &mut [u8]) -> Result<(), Refusal>
    ensures { moved_as result out.new ≡ move_forward file.now out.old }
{
    moving::moved(file, Wanted::Plain, Kind::WeighedBus, out)
}

// A file of BV as one of BU, where every weight is 1.
#[tactic(auto, using(crate::proofs::Moves::is_moved_back))]
pub fn move_back(file: &[u8], out: &mut [u8]) -> Result<(), Refusal>
    ensures { moved_as result out.new ≡ move_back file.now out.old }
{
    moving::moved(file, Wanted::Weighed, Kind::Bus, out)
}
