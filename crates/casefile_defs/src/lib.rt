// The case file's types and bounds: the definition of the file and of its reading, their laws, and worked examples. The one piece of code tests that tables have
// their largest size, as every operation does that fills them.
#![tactic(auto)]

ghost use Rattle.std.specs.Prelude.{◌≡◌};
ghost use Rattle.casefile_defs.specs.Tables.{places_of, sizes_ok};

pub use loops::{MOST_BUSES, MOST_CORRIDORS, MOST_GENERATORS, MOST_LEVELS};
use mode::PlanMode;
use refusal::Refusal;

// The largest file.
pub const MOST_BYTES: usize = 65536;

// A row of the sheet has five figures, and there is one for each corridor and level.
pub const ROW_FIGURES: usize = sheets::ROW_FIGURES;

pub const MOST_SHEET: usize = MOST_CORRIDORS * MOST_LEVELS * ROW_FIGURES;

// The bytes of a record of each kind, its mark counted.
pub const HEAD_BYTES: usize = 15;

pub const LEVEL_BYTES: usize = 10;

pub const BUS_BYTES: usize = 11;

pub const GENERATOR_BYTES: usize = 37;

pub const CORRIDOR_BYTES: usize = 23;

pub const LINE_BYTES: usize = 35;

pub const CAPPED_CORRIDOR_BYTES: usize = 24;

pub const WEIGHED_BUS_BYTES: usize = 19;

// A case's mode, target and counts.
#[derive(Clone, Copy)]
pub struct Header {
    pub mode: PlanMode,
    pub target: u32,
    pub buses: usize,
    pub corridors: usize,
    pub generators: usize,
    pub above: usize,
    pub requested: usize,
}

// A reading, and how many words of eight bytes and single bytes were looked at after the last record (none where it was refused before).
#[derive(Clone, Copy)]
pub struct CaseRead {
    pub reading: Result<Header, Refusal>,
    pub looks: usize,
}

// The kinds of record, in the file's order; the last two may stand for a corridor and for a bus.
#[derive(Clone, Copy)]
pub enum Kind {
    Head,
    Level,
    Bus,
    Generator,
    Corridor,
    Line,
    CappedCorridor,
    WeighedBus,
}

// The buses that a file may have: of the first one's kind, or only BU, or only BV.
#[derive(Clone, Copy)]
pub enum Wanted {
    Either,
    Plain,
    Weighed,
}

// How far a test of the trailing bytes came: the place of the next byte, and the words or bytes looked at.
#[derive(Clone, Copy)]
pub struct Looked {
    pub at: usize,
    pub looks: usize,
}

// Whether each table is lent at its largest size.
// Each is a parameter of its own, as the callers are lent them.
#[tactic(auto, unfolding(crate::specs::Tables::sizes_ok))]
pub fn tables_sized(
    ladder: &[f64],
    tier: &[u32],
    reading: &[f64],
    weight: &[f64],
    bus: &[u32],
    slack: &[u32],
    pmin: &[f64],
    pmax: &[f64],
    c1: &[f64],
    c2: &[f64],
    a: &[u32],
    b: &[u32],
    circuits: &[u32],
    length_km: &[f64],
    share: &[f64],
    cap: &[u32],
    sheet: &[f64],
) -> bool
    ensures { result ≡ sizes_ok (places_of ladder.now tier.now reading.now weight.now bus.now slack.now pmin.now pmax.now c1.now c2.now a.now b.now circuits.now length_km.now share.now cap.now sheet.now) }
{
    (ladder.len() == MOST_LEVELS)
        & (tier.len() == MOST_BUSES)
        & (reading.len() == MOST_BUSES)
        & (weight.len() == MOST_BUSES)
        & (bus.len() == MOST_GENERATORS)
        & (slack.len() == MOST_GENERATORS)
        & (pmin.len() == MOST_GENERATORS)
        & (pmax.len() == MOST_GENERATORS)
        & (c1.len() == MOST_GENERATORS)
        & (c2.len() == MOST_GENERATORS)
        & (a.len() == MOST_CORRIDORS)
        & (b.len() == MOST_CORRIDORS)
        & (circuits.len() == MOST_CORRIDORS)
        & (length_km.len() == MOST_CORRIDORS)
        & (share.len() == MOST_CORRIDORS)
        & (cap.len() == MOST_CORRIDORS)
        & (sheet.len() == MOST_SHEET)
}
