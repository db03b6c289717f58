// Request DISP.
use crate::line::{AnswerLine, Unanswered};
use request_fields::{Fields, MOST_COUNT, NoRequest, Table};

// The limits and costs of the units, a table for each.
#[derive(Default, Drop)]
struct Units {
    pmin: Table<f64>,
    pmax: Table<f64>,
    c1: Table<f64>,
    c2: Table<f64>,
}

impl Units {
    // The next n units.
    fn read(fields: &mut Fields, n: usize) -> Result<Units, NoRequest> {
        let mut units = Units::default();
        for _ in 0..n {
            fields.read_to(&mut units.pmin)?;
            fields.read_to(&mut units.pmax)?;
            fields.read_to(&mut units.c1)?;
            fields.read_to(&mut units.c2)?;
        }
        Ok(units)
    }
}

// DISP u demand (pmin pmax c1 c2)×u
pub fn answer_dispatch(mut fields: Fields, out: &mut AnswerLine) -> Result<(), Unanswered> {
    let u = fields.count()?;
    let demand = fields.read()?;
    let units = Units::read(&mut fields, u)?;
    fields.end()?;
    let mw = &mut [0.0; MOST_COUNT][..u];
    dispatch::economic_dispatch(
        u,
        &units.pmin,
        &units.pmax,
        &units.c1,
        &units.c2,
        demand,
        mw,
    )?;
    out.text("OK");
    out.fields(mw);
    Ok(())
}
