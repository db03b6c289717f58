// The tables of a case that an operation fills.
use crate::lent::{Mark, kept};
use casefile_defs::{MOST_BUSES, MOST_CORRIDORS, MOST_GENERATORS, MOST_LEVELS, MOST_SHEET};

// Each at its largest size and a place more, marked. Not case_tables': the language computes no length from a const parameter, as N + 1.
#[derive(Drop)]
pub struct Tables {
    pub ladder: [f64; MOST_LEVELS + 1],
    pub tier: [u32; MOST_BUSES + 1],
    pub reading: [f64; MOST_BUSES + 1],
    pub weight: [f64; MOST_BUSES + 1],
    pub bus: [u32; MOST_GENERATORS + 1],
    pub slack: [u32; MOST_GENERATORS + 1],
    pub pmin: [f64; MOST_GENERATORS + 1],
    pub pmax: [f64; MOST_GENERATORS + 1],
    pub c1: [f64; MOST_GENERATORS + 1],
    pub c2: [f64; MOST_GENERATORS + 1],
    pub a: [u32; MOST_CORRIDORS + 1],
    pub b: [u32; MOST_CORRIDORS + 1],
    pub circuits: [u32; MOST_CORRIDORS + 1],
    pub km: [f64; MOST_CORRIDORS + 1],
    pub share: [f64; MOST_CORRIDORS + 1],
    pub cap: [u32; MOST_CORRIDORS + 1],
    pub sheet: [f64; MOST_SHEET + 1],
}

impl Tables {
    // How many there are.
    pub const COUNT: usize = 17;

    pub fn marked() -> Self {
        Tables {
            ladder: [f64::MARK; MOST_LEVELS + 1],
            tier: [u32::MARK; MOST_BUSES + 1],
            reading: [f64::MARK; MOST_BUSES + 1],
            weight: [f64::MARK; MOST_BUSES + 1],
            bus: [u32::MARK; MOST_GENERATORS + 1],
            slack: [u32::MARK; MOST_GENERATORS + 1],
            pmin: [f64::MARK; MOST_GENERATORS + 1],
            pmax: [f64::MARK; MOST_GENERATORS + 1],
            c1: [f64::MARK; MOST_GENERATORS + 1],
            c2: [f64::MARK; MOST_GENERATORS + 1],
            a: [u32::MARK; MOST_CORRIDORS + 1],
            b: [u32::MARK; MOST_CORRIDORS + 1],
            circuits: [u32::MARK; MOST_CORRIDORS + 1],
            km: [f64::MARK; MOST_CORRIDORS + 1],
            share: [f64::MARK; MOST_CORRIDORS + 1],
            cap: [u32::MARK; MOST_CORRIDORS + 1],
            sheet: [f64::MARK; MOST_SHEET + 1],
        }
    }

    // Whether every place holds its mark still.
    pub fn kept(&self) -> bool {
        let buses = kept(&self.tier) & kept(&self.reading) & kept(&self.weight);
        let places = kept(&self.bus) & kept(&self.slack);
        let units = kept(&self.pmin) & kept(&self.pmax) & kept(&self.c1) & kept(&self.c2);
        let ends = kept(&self.a) & kept(&self.b);
        let corridors = kept(&self.circuits) & kept(&self.km) & kept(&self.share) & kept(&self.cap);
        kept(&self.ladder) & buses & places & units & ends & corridors & kept(&self.sheet)
    }
}
