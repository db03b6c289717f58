// A case file, read and planned: what the listing, a preview and a season start from. Document 01 lists no such operation; docs/DECISIONS.md says why it
// is public.
#![tactic(auto)]

ghost use Rattle.std.specs.Prelude.{◌≡◌, [], Err};
ghost use Rattle.case_tables.specs.Tables.{tables_in};
ghost use Rattle.casefile_defs.specs.Tables.{held as headerOf};
ghost use Rattle.case_defs.specs.Cases.{case_in};
ghost use Rattle.planned_files.specs.Files.{plan_of, filed, plan_read, plan_file, filed_of, zeros};

mod file;

use casefile_defs::{MOST_BUSES, MOST_CORRIDORS, MOST_GENERATORS, MOST_LEVELS};
use cases::Case;
pub use file::{PlannedFile, Results};
use planning::{WORK_ROWS, plan_corridors};
use refusal::Refusal;

// The places of a work slice for a case of the most buses, corridors and generators.
const MOST_WORK: usize = WORK_ROWS * (MOST_BUSES + MOST_CORRIDORS + MOST_GENERATORS);

impl Results {
    fn zeros() -> Results
        ensures { result ≡ zeros }
    {
        Results {
            circuits: [0; MOST_CORRIDORS],
            flow: [0.0; MOST_CORRIDORS],
            rate: [0.0; MOST_CORRIDORS],
            before: [0; MOST_CORRIDORS],
            order: [0; MOST_CORRIDORS],
            cap: [0; MOST_CORRIDORS],
            mw: [0.0; MOST_GENERATORS],
            angle: [0.0; MOST_BUSES],
            tier: [0; MOST_BUSES],
            ground: [0; MOST_BUSES],
            added: [0.0; MOST_LEVELS],
        }
    }
}

// A file that reading refuses.
fn unread(f: Refusal) -> PlannedFile
    ensures { filed_of result ≡ filed (headerOf (Err f)) (plan_read [] (Err f)) }
{
    PlannedFile {
        header: casefile::NOTHING,
        planned: Err(f),
        results: Results::zeros(),
    }
}

// A case that was read.
fn plan_case(case: &Case) -> PlannedFile
    ensures { let h = case.now.header in filed_of result ≡ filed h (plan_of (case_in h (tables_in case.now.tables)) h.target) }
{
    let h = case.header;
    let n = h.buses;
    let m = h.corridors;
    let g = h.generators;
    let above = h.above;
    let work = WORK_ROWS * (n + m + g);
    let parts = case.fronts();
    let mut figures = [0.0; MOST_WORK];
    let mut counts = [0; MOST_WORK];
    let mut results = Results::zeros();
    let planned = plan_corridors(
        h.mode,
        h.target,
        n,
        m,
        g,
        above,
        h.requested,
        parts.ladder,
        parts.tier,
        parts.reading,
        parts.weight,
        parts.bus,
        parts.slack,
        parts.pmin,
        parts.pmax,
        parts.c1,
        parts.c2,
        parts.a,
        parts.b,
        parts.circuits,
        parts.length_km,
        parts.share,
        parts.cap,
        parts.sheet,
        &mut results.circuits[0..m],
        &mut results.flow[0..m],
        &mut results.rate[0..m],
        &mut results.before[0..m],
        &mut results.order[0..m],
        &mut results.cap[0..m],
        &mut results.mw[0..g],
        &mut results.angle[0..n],
        &mut results.tier[0..n],
        &mut results.ground[0..n],
        &mut results.added[0..above],
        &mut figures[0..work],
        &mut counts[0..work],
    );
    PlannedFile {
        header: h,
        planned,
        results,
    }
}

// Reads a case file and plans its case.
pub fn plan_file(file: &[u8]) -> PlannedFile
    ensures { filed_of result ≡ plan_file file.now }
{
    match Case::read(file) {
        Err(f) => unread(f),
        Ok(case) => plan_case(&case),
    }
}
