// What becomes of a file that is read and planned.
ghost use Rattle.casefile_defs.specs.Reading.{Small};

use casefile_defs::{Header, MOST_BUSES, MOST_CORRIDORS, MOST_GENERATORS, MOST_LEVELS};
use plan_defs::CorridorPlan;
use refusal::Refusal;

// What planning leaves, in the first places of each array: the header and the plan count them, one number for several arrays, which a vector each would
// hold several times.
#[derive(Clone, Copy)]
pub struct Results {
    pub circuits: [u32; MOST_CORRIDORS],
    pub flow: [f64; MOST_CORRIDORS],
    pub rate: [f64; MOST_CORRIDORS],
    pub before: [u32; MOST_CORRIDORS],
    pub order: [u32; MOST_CORRIDORS],
    pub cap: [u32; MOST_CORRIDORS],
    pub mw: [f64; MOST_GENERATORS],
    pub angle: [f64; MOST_BUSES],
    pub tier: [u32; MOST_BUSES],
    pub ground: [u32; MOST_BUSES],
    pub added: [f64; MOST_LEVELS],
}

// A file's header, what planning says and what it leaves. A file that reading refuses has no records.
#[derive(Clone, Copy)]
pub struct PlannedFile {
    pub header: Header,
    pub planned: Result<CorridorPlan, Refusal>,
    pub results: Results,
    pub ghost small: { Small header },
}
