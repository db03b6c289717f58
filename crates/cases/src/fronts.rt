// Of each table of a case the places of the header's records, as planning and joining are lent them.
ghost use Rattle.std.specs.Prelude.{◌≡◌};
ghost use Rattle.case_tables.specs.Tables.{tables_in};
ghost use Rattle.casefile_theorems.specs.Cases.{fronts};
ghost use Rattle.cases.specs.Cases.{lent};

use crate::Case;
use casefile_defs::ROW_FIGURES;

#[derive(Clone, Copy)]
pub struct Fronts<'a> {
    pub ladder: &'a [f64],
    pub tier: &'a [u32],
    pub reading: &'a [f64],
    pub weight: &'a [f64],
    pub bus: &'a [u32],
    pub slack: &'a [u32],
    pub pmin: &'a [f64],
    pub pmax: &'a [f64],
    pub c1: &'a [f64],
    pub c2: &'a [f64],
    pub a: &'a [u32],
    pub b: &'a [u32],
    pub circuits: &'a [u32],
    pub length_km: &'a [f64],
    pub share: &'a [f64],
    pub cap: &'a [u32],
    pub sheet: &'a [f64],
}

impl Case {
    pub fn fronts(&self) -> Fronts<'_>
        ensures { lent result ≡ fronts self.now.header (tables_in self.now.tables) }
    {
        let (n, m, g) = (
            self.header.buses,
            self.header.corridors,
            self.header.generators,
        );
        let levels = self.header.above + self.header.requested;
        let rows = m * levels * ROW_FIGURES;
        let tables = &self.tables;
        Fronts {
            ladder: &tables.ladder[..levels],
            tier: &tables.tier[..n],
            reading: &tables.reading[..n],
            weight: &tables.weight[..n],
            bus: &tables.bus[..g],
            slack: &tables.slack[..g],
            pmin: &tables.pmin[..g],
            pmax: &tables.pmax[..g],
            c1: &tables.c1[..g],
            c2: &tables.c2[..g],
            a: &tables.a[..m],
            b: &tables.b[..m],
            circuits: &tables.circuits[..m],
            length_km: &tables.length_km[..m],
            share: &tables.share[..m],
            cap: &tables.cap[..m],
            sheet: &tables.sheet[..rows],
        }
    }
}
