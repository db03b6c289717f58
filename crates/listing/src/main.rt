// Reads a case file on standard input, plans it and prints the listing, or the refusal. What is printed of what was read is
// proved (Text::put_file); that reading and writing move these bytes is assumed.
#![tactic(auto)]

mod case;
mod line;
mod text;

use std::io;
use std::io::Write;
use text::Text;

// One byte more than the largest file, so that a larger one shows.
const MOST_FILE: usize = casefile_defs::MOST_BYTES + 1;

fn main(rt: HostRuntime) -> io::Result<()> {
    let mut file = [0u8; MOST_FILE];
    let n = streams::read_full(&mut rt.stdin(), &mut file)?;
    let mut text = Text::new();
    text.put_file(&file[0..n]);
    rt.stdout().write_all(text.as_slice())
}
