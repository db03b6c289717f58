// Request LAID.
use crate::line::{AnswerLine, Unanswered};
use crate::sheet::{MOST_FIGURES, read_sheet};
use request_fields::Fields;

// LAID corridors levels n figure×n places
pub fn answer_laid(mut fields: Fields, out: &mut AnswerLine) -> Result<(), Unanswered> {
    let corridors = fields.count()?;
    let levels = fields.count()?;
    let mut rows = [0.0; MOST_FIGURES];
    let rows = read_sheet(&mut fields, &mut rows)?;
    let places = fields.read::<u32>()? as usize;
    fields.end()?;
    if places > MOST_FIGURES {
        return Err(Unanswered::NoRequest);
    }
    let sheet = &mut [0.0; MOST_FIGURES][..places];
    sheets::lay_out(corridors, levels, rows, sheet)?;
    out.text("OK");
    out.fields(sheet);
    Ok(())
}
