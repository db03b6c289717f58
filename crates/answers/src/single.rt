// Requests SQRT and IMP, of one figure each.
use crate::line::{AnswerLine, Unanswered};
use request_fields::Fields;

// SQRT v
pub fn answer_square_root(mut fields: Fields, out: &mut AnswerLine) -> Result<(), Unanswered> {
    let bits: u64 = fields.read()?;
    fields.end()?;
    out.text("OK");
    out.field(root::square_root(bits));
    Ok(())
}

// IMP mva
pub fn answer_impedance(mut fields: Fields, out: &mut AnswerLine) -> Result<(), Unanswered> {
    let mva = fields.read()?;
    fields.end()?;
    let z = impedance::transformer_impedance(mva)?;
    out.text("OK");
    out.field(z.r);
    out.field(z.x);
    Ok(())
}
