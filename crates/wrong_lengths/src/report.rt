// What is wrong with a call, what came of it, and a line for each.
use crate::lent::Wrong;
use refusal::Refusal;
use std::io;
use std::io::Write;
use streams::write_field;

// What came of a call, by what the operation answers: one of two kinds, and never nothing.
#[derive(Clone, Copy)]
pub enum Outcome {
    // The refusal, if it was one, and whether the lent arrays hold their marks still.
    Answer {
        refusal: Option<Refusal>,
        kept: bool,
    },
    // Of an operation that hands a part of a slice back: how many figures that has.
    Figures(usize),
}

impl Outcome {
    pub fn new<T: Drop>(said: Result<T, Refusal>, kept: bool) -> Self {
        Outcome::Answer {
            refusal: said.err(),
            kept,
        }
    }
}

fn report_outcome<W: Write>(to: &mut W, outcome: Outcome) -> io::Result<()> {
    let (refusal, kept) = match outcome {
        Outcome::Figures(count) => {
            write_field(to, count as u64)?;
            return writeln!(to, " figures");
        }
        Outcome::Answer { refusal, kept } => (refusal, kept),
    };
    match refusal {
        None => write!(to, " OK")?,
        Some(refusal) => write!(to, " RF {refusal}")?,
    }
    writeln!(to, ", {}", if kept { "kept" } else { "changed" })
}

// What a call was, what was wrong with it and what came of it.
pub fn report<W: Write>(
    to: &mut W,
    what: &str,
    wrong: Option<Wrong>,
    outcome: Outcome,
) -> io::Result<()> {
    write!(to, "{what}")?;
    if let Some(Wrong { slice, off }) = wrong {
        write!(to, ", slice")?;
        write_field(to, slice as u64)?;
        write!(to, " {off}")?;
    }
    write!(to, ":")?;
    report_outcome(to, outcome)
}
