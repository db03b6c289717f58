// Reads a case file on standard input and prints what was read, a line for each record, or the refusal; and last how many words and bytes were
// looked at after the records.
// What is printed is tested, not proved; that the program is safe, ends and prints the places of the records alone is proved.
#![tactic(auto)]

mod figure;
mod listed;

use cases::Reading;
use listed::print_case;
use std::io;
use std::io::Write;
use streams::write_field;

// One byte more than the largest file, so that a larger one shows.
const BUFFER: usize = casefile_defs::MOST_BYTES + 1;

fn main(rt: HostRuntime) -> io::Result<()> {
    let mut to = rt.stdout();
    let mut buffer = [0u8; BUFFER];
    let n = streams::read_full(&mut rt.stdin(), &mut buffer)?;
    let Reading { case, looks } = Reading::of(&buffer[..n]);
    match case {
        Ok(case) => print_case(&mut to, &case)?,
        Err(refusal) => writeln!(to, "RF {refusal}")?,
    }
    write!(to, "LK")?;
    write_field(&mut to, looks as u64)?;
    writeln!(to)
}
