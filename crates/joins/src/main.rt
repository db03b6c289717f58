// Joins two case files: on standard input comes the first in 65,536 bytes, or in all there are, then the second. Writes the file of the
// joined case or prints the refusal. What is written is proved (join_files); that the input is cut rightly and the refusal printed rightly
// is tested.
#![tactic(auto)]

mod files;

use casefile_defs::MOST_BYTES;
use casefile_writer::MOST_FILE;
use files::join_files;
use std::io;
use std::io::Write;
use streams::write_field;

// One byte more than the largest file, so that a larger one shows.
const MOST_SECOND: usize = MOST_BYTES + 1;

// case_writer's write_network ends so too: of one function for both a contract would say what the writer holds then, for six lines.
#[tactic(auto, unfolding(crate::specs::Files::Kept))]
fn write_joined<W: Write>(to: &mut W, first: &[u8], second: &[u8]) -> io::Result<()> {
    let mut out = [0; MOST_FILE];
    match join_files(first, second, &mut out) {
        Err(f) => {
            write!(to, "RF")?;
            write_field(to, u64::from(f.number()))?;
            write_field(to, f.index() as u64)?;
            writeln!(to)
        }
        Ok(n) => to.write_all(&out[..n]),
    }
}

fn main(rt: HostRuntime) -> io::Result<()> {
    let mut from = rt.stdin();
    let mut first = [0; MOST_BYTES];
    let n = streams::read_full(&mut from, &mut first)?;
    let mut second = [0; MOST_SECOND];
    let m = streams::read_full(&mut from, &mut second)?;
    write_joined(&mut rt.stdout(), &first[..n], &second[..m])
}
