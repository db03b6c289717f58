// Request ROWS.
use crate::line::{AnswerLine, Unanswered};
use crate::sheet::{MOST_FIGURES, read_sheet};
use request_fields::Fields;

// ROWS corridors levels surveyed k n figure×n m figure×m
pub fn answer_rows(mut fields: Fields, out: &mut AnswerLine) -> Result<(), Unanswered> {
    let corridors = fields.count()?;
    let levels = fields.count()?;
    let surveyed_corridors = fields.count()?;
    let k = fields.count()?;
    let mut surveyed = [0.0; MOST_FIGURES];
    let surveyed = read_sheet(&mut fields, &mut surveyed)?;
    let mut worked = [0.0; MOST_FIGURES];
    let worked = read_sheet(&mut fields, &mut worked)?;
    fields.end()?;
    let rows = line_sheet::corridor_rows(
        levels,
        corridors,
        surveyed_corridors,
        k,
        surveyed,
        worked,
    );
    out.text("OK");
    out.number(rows.len());
    out.fields(rows);
    Ok(())
}
