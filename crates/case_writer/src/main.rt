// Writes the case file of a small network: its place, in decimal, comes on standard input. Prints the refusal of a place that there
// is not, and ?? where the input is no number. The file's bytes are proved (put_small_network); that the number is read rightly
// and the refusal printed rightly is tested.
#![tactic(auto)]

mod file;

use casefile_writer::MOST_FILE;
use file::put_small_network;
use std::io;
use std::io::Write;
use streams::write_field;

// More digits than are told apart: a number of that many is past every place.
const MOST_DIGITS: usize = 16;

// The place that was asked for, where the input is a number: digits alone, where `parse` would take a plus sign too.
fn wanted_in(text: &[u8]) -> Option<usize> {
    if !text.iter().all(u8::is_ascii_digit) {
        return None;
    }
    std::str::from_utf8(text).ok()?.parse().ok()
}

// joins' write_joined ends so too: of one function for both a contract would say what the writer holds then, for six lines.
#[tactic(auto, unfolding(crate::specs::Files::Wrote))]
fn write_network<W: Write>(to: &mut W, place: usize) -> io::Result<()> {
    let mut out = [0; MOST_FILE];
    match put_small_network(&mut out, place) {
        Err(f) => {
            write!(to, "RF")?;
            write_field(to, u64::from(f.number()))?;
            write_field(to, f.index() as u64)?;
            writeln!(to)
        }
        Ok(n) => to.write_all(&out[..n]),
    }
}

fn main(rt: HostRuntime) -> io::Result<()> {
    let mut to = rt.stdout();
    let mut input = [0; MOST_DIGITS];
    let n = streams::read_full(&mut rt.stdin(), &mut input)?;
    match wanted_in(&input[..n]) {
        None => writeln!(to, "??"),
        Some(place) => write_network(&mut to, place),
    }
}
