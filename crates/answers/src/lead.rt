// Request LEAD.
use crate::line::{AnswerLine, Unanswered};
use request_fields::{Fields, MOST_COUNT, Table};

// LEAD n m (a b)×m
pub fn answer_leaders(mut fields: Fields, out: &mut AnswerLine) -> Result<(), Unanswered> {
    let buses = fields.count()?;
    let corridors = fields.count()?;
    let mut a: Table<u32> = Table::new();
    let mut b: Table<u32> = Table::new();
    for _ in 0..corridors {
        fields.read_to(&mut a)?;
        fields.read_to(&mut b)?;
    }
    fields.end()?;
    let leader = &mut [0; MOST_COUNT][..buses];
    leaders::leaders(buses, corridors, &a, &b, leader)?;
    out.text("OK");
    out.fields(leader);
    Ok(())
}
