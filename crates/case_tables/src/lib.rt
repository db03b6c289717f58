// The seventeen tables of a case, each with room for the largest: what case reading, joining and the small networks fill, and a file is written from.
#![tactic(auto)]

ghost use Rattle.std.specs.Prelude.{◌≡◌};
ghost use Rattle.casefile_theorems.specs.Cases.{blank};
ghost use Rattle.case_tables.specs.Tables.{tables_in};

use casefile_defs::{MOST_BUSES, MOST_CORRIDORS, MOST_GENERATORS, MOST_LEVELS, MOST_SHEET};

#[derive(Drop)]
pub struct Tables {
    pub ladder: [f64; MOST_LEVELS],
    pub tier: [u32; MOST_BUSES],
    pub reading: [f64; MOST_BUSES],
    pub weight: [f64; MOST_BUSES],
    pub bus: [u32; MOST_GENERATORS],
    pub slack: [u32; MOST_GENERATORS],
    pub pmin: [f64; MOST_GENERATORS],
    pub pmax: [f64; MOST_GENERATORS],
    pub c1: [f64; MOST_GENERATORS],
    pub c2: [f64; MOST_GENERATORS],
    pub a: [u32; MOST_CORRIDORS],
    pub b: [u32; MOST_CORRIDORS],
    pub circuits: [u32; MOST_CORRIDORS],
    pub length_km: [f64; MOST_CORRIDORS],
    pub share: [f64; MOST_CORRIDORS],
    pub cap: [u32; MOST_CORRIDORS],
    pub sheet: [f64; MOST_SHEET],
}

impl Tables {
    #[tactic(auto, unfolding(casefile_theorems::specs::Cases::blank))]
    pub fn zeros() -> Tables
        ensures { tables_in result ≡ blank }
    {
        Tables {
            ladder: [0.0; MOST_LEVELS],
            tier: [0; MOST_BUSES],
            reading: [0.0; MOST_BUSES],
            weight: [0.0; MOST_BUSES],
            bus: [0; MOST_GENERATORS],
            slack: [0; MOST_GENERATORS],
            pmin: [0.0; MOST_GENERATORS],
            pmax: [0.0; MOST_GENERATORS],
            c1: [0.0; MOST_GENERATORS],
            c2: [0.0; MOST_GENERATORS],
            a: [0; MOST_CORRIDORS],
            b: [0; MOST_CORRIDORS],
            circuits: [0; MOST_CORRIDORS],
            length_km: [0.0; MOST_CORRIDORS],
            share: [0.0; MOST_CORRIDORS],
            cap: [0; MOST_CORRIDORS],
            sheet: [0.0; MOST_SHEET],
        }
    }
}
