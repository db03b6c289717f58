// Request SHEET.
use crate::line::{AnswerLine, Unanswered};
use arrayvec::ArrayVec;
use loops::{MOST_CORRIDORS, MOST_LEVELS};
use request_fields::{Fields, NoRequest};
use sheets::ROW_FIGURES;

// Levels, corridors and figures of a sheet that are taken: of levels and corridors one past each bound.
const LEVELS: usize = MOST_LEVELS + 1;

const CORRIDORS: usize = MOST_CORRIDORS + 1;

pub const MOST_FIGURES: usize = ROW_FIGURES * LEVELS * CORRIDORS;

// A sheet, behind the number of its figures, at the start of a lent table: a vector of so many figures would be moved at each `?`.
pub fn read_sheet<'t>(
    fields: &mut Fields,
    table: &'t mut [f64; MOST_FIGURES],
) -> Result<&'t [f64], NoRequest> {
    let figures = fields.read::<u32>()? as usize;
    if figures > MOST_FIGURES {
        return Err(NoRequest);
    }
    let sheet = &mut table[..figures];
    fields.fill(sheet)?;
    Ok(sheet)
}

// SHEET levels kv×levels corridors (km spread)×corridors
pub fn answer_sheet(mut fields: Fields, out: &mut AnswerLine) -> Result<(), Unanswered> {
    let levels = fields.count()?;
    let ladder: ArrayVec<f64, LEVELS> = fields.table(levels)?;
    let corridors = fields.count()?;
    let mut km: ArrayVec<f64, CORRIDORS> = ArrayVec::new();
    let mut spread: ArrayVec<f64, CORRIDORS> = ArrayVec::new();
    for _ in 0..corridors {
        fields.read_to(&mut km)?;
        fields.read_to(&mut spread)?;
    }
    fields.end()?;
    let figures = ROW_FIGURES * (km.len() * ladder.len());
    let sheet = &mut [0.0; MOST_FIGURES][..figures];
    line_sheet::line_sheet(levels, corridors, &ladder, &km, &spread, sheet)?;
    out.text("OK");
    out.fields(sheet);
    Ok(())
}
