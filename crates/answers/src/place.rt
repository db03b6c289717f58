// Request PLACE.
use crate::edges::Edges;
use crate::line::{AnswerLine, Unanswered};
use request_fields::{Fields, MOST_COUNT, Table};

// PLACE n m g reading×n weight×n (a b km)×m bus×g
pub fn answer_placement(mut fields: Fields, out: &mut AnswerLine) -> Result<(), Unanswered> {
    let n = fields.count()?;
    let m = fields.count()?;
    let g = fields.count()?;
    let reading: Table<f64> = fields.table(n)?;
    let weight: Table<f64> = fields.table(n)?;
    let corridors = Edges::read(&mut fields, m)?;
    let generators: Table<u32> = fields.table(g)?;
    fields.end()?;
    let buses = &mut [0; MOST_COUNT][..n];
    let mvars = &mut [0.0; MOST_COUNT][..n];
    let placed = placement::place_voltage_support(
        n,
        m,
        g,
        &reading,
        &weight,
        &corridors.a,
        &corridors.b,
        &corridors.figure,
        &generators,
        buses,
        mvars,
    )?;
    out.text("OK");
    out.number(placed);
    for (bus, mvar) in buses.iter().zip(mvars.iter()).take(placed) {
        out.field(*bus);
        out.field(*mvar);
    }
    Ok(())
}
