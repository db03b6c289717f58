// Moves a case file into the other form of buses: on standard input comes F for forward or B for back, then the file. Writes the moved file, 65,536 bytes, or the
// refusal, or ?? where the first byte is neither. What is written is proved (casefile::move_forward, casefile::move_back); that the input is cut rightly and the
// refusal printed rightly is tested.
#![tactic(auto)]

use casefile_defs::MOST_BYTES;
use std::io;
use std::io::{Read, Write};
use streams::write_field;

// One byte more than the largest file, so that a larger one shows.
const MOST_FILE: usize = MOST_BYTES + 1;

// The file that follows, moved.
fn convert<R: Read, W: Write>(from: &mut R, to: &mut W, direction: u8) -> io::Result<()> {
    let mut file = [0; MOST_FILE];
    let n = streams::read_full(from, &mut file)?;
    let mut out = [0; MOST_BYTES];
    let moved = match direction {
        b'F' => casefile::move_forward(&file[..n], &mut out),
        b'B' => casefile::move_back(&file[..n], &mut out),
        _ => return to.write_all(b"??\n"),
    };
    match moved {
        Ok(()) => to.write_all(&out),
        Err(refusal) => {
            write!(to, "RF")?;
            write_field(to, u64::from(refusal.number()))?;
            write_field(to, refusal.index() as u64)?;
            writeln!(to)
        }
    }
}

fn main(rt: HostRuntime) -> io::Result<()> {
    let mut from = rt.stdin();
    let mut direction = [0; 1];
    streams::read_full(&mut from, &mut direction)?;
    convert(&mut from, &mut rt.stdout(), direction[0])
}
