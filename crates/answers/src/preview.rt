// Request PREV.
use crate::line::{AnswerLine, Unanswered};
use mode::PlanMode;
use request_fields::{Fields, MOST_COUNT, Table};

// PREV mode target m before×m cap×m order×m
pub fn answer_preview(mut fields: Fields, out: &mut AnswerLine) -> Result<(), Unanswered> {
    let number = fields.read::<u32>()?;
    let mode = PlanMode::try_from(u64::from(number)).map_err(|_| Unanswered::NoRequest)?;
    let target = fields.read()?;
    let m = fields.count()?;
    let before: Table<u32> = fields.table(m)?;
    let cap: Table<u32> = fields.table(m)?;
    let order: Table<u32> = fields.table(m)?;
    fields.end()?;
    let circuits = &mut [0; MOST_COUNT][..m];
    planning::preview_filling(mode, target, m, &before, &order, &cap, circuits)?;
    out.text("OK");
    out.fields(circuits);
    Ok(())
}
