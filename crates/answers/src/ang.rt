// Request ANG.
use crate::edges::Edges;
use crate::line::{AnswerLine, Unanswered};
use angles_defs::Ended;
use request_fields::{Fields, MOST_COUNT, Table};

// The figures of work that the solver is lent for each bus.
const WORK_PER_BUS: usize = 8;

const MOST_WORK: usize = WORK_PER_BUS * MOST_COUNT;

// Puts how the solve ended, and its last figure.
fn put_ended(out: &mut AnswerLine, ended: Ended) {
    let (how, figure) = match ended {
        Ended::Settled(norm) => (" SETTLED", norm),
        Ended::NoDescent(dq) => (" NODESCENT", dq),
        Ended::StepsSpent(norm) => (" SPENT", norm),
    };
    out.text(how);
    out.field(figure);
}

// ANG n m g guess (a b w)×m injection×n ground×g [guess×n]; guesses follow where guess is 1
pub fn answer_angles(mut fields: Fields, out: &mut AnswerLine) -> Result<(), Unanswered> {
    let n = fields.count()?;
    let m = fields.count()?;
    let g = fields.count()?;
    let guesses = match fields.read::<u32>()? {
        0 => 0,
        1 => n,
        _ => return Err(Unanswered::NoRequest),
    };
    let edges = Edges::read(&mut fields, m)?;
    let injection: Table<f64> = fields.table(n)?;
    let grounds: Table<u32> = fields.table(g)?;
    let mut guess = [0.0; MOST_COUNT];
    fields.fill(&mut guess[..guesses])?;
    fields.end()?;
    let angle = &mut [0.0; MOST_COUNT][..n];
    let work = &mut [0.0; MOST_WORK][..WORK_PER_BUS * n];
    let solution = angles::dc_angles(
        n,
        m,
        g,
        &edges.a,
        &edges.b,
        &edges.figure,
        &injection,
        &grounds,
        &guess[..n],
        angle,
        work,
    )?;
    out.text("OK");
    out.number(solution.steps);
    put_ended(out, solution.ended);
    out.fields(angle);
    Ok(())
}
