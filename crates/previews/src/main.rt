// Reads a case file and targets on standard input: the file's length, the file, then each target; a number is four bytes, the
// lowest first. Plans the file once, and prints for each target the circuits that each corridor would have, or the refusal. What
// the plan keeps and what a target gives is proved (draft_file, Draft::preview); that the input is cut rightly and the words
// printed are these is tested.
#![tactic(auto)]

mod draft;
mod file;

use casefile_defs::MOST_BYTES;
use draft::Draft;
use file::draft_file;
use refusal::Refusal;
use std::io;
use std::io::{Read, Write};
use streams::write_field;

// One byte more than the largest file, so that a larger one shows.
const MOST_FILE: usize = MOST_BYTES + 1;

// ---- reading
// The next number, where the input has one whole.
fn read_number<R: Read>(from: &mut R) -> io::Result<Option<u32>> {
    let mut bytes = [0; 4];
    let n = streams::read_full(from, &mut bytes)?;
    Ok((n == bytes.len()).then_some(u32::from_le_bytes(bytes)))
}

// The file, read and planned. Of one that is too long what is left is no target: no file that is refused has any.
fn read_draft<R: Read>(from: &mut R) -> io::Result<Result<Draft, Refusal>> {
    let size = read_number(from)?.unwrap_or(0);
    let most = MOST_FILE.min(size as usize);
    let mut file = [0; MOST_FILE];
    let n = streams::read_full(from, &mut file[..most])?;
    Ok(draft_file(&file[..n]))
}

// ---- printing
// PV target, then CO index circuits for each corridor, or RF number index
fn print_preview<W: Write>(to: &mut W, draft: &Draft, target: u32) -> io::Result<()> {
    write!(to, "PV")?;
    write_field(to, u64::from(target))?;
    writeln!(to)?;
    match draft.preview(target) {
        Err(f) => writeln!(to, "RF {f}"),
        Ok(circuits) => {
            for (k, n) in circuits[..draft.corridors].iter().enumerate() {
                write!(to, "CO")?;
                write_field(to, k as u64)?;
                write_field(to, u64::from(*n))?;
                writeln!(to)?;
            }
            Ok(())
        }
    }
}

// A proved loop has to end, and nothing says that the input does: no run reaches the last target.
fn preview_targets<R: Read, W: Write>(from: &mut R, to: &mut W, draft: &Draft) -> io::Result<()> {
    for _ in 0..u64::MAX {
        let Some(target) = read_number(from)? else {
            break;
        };
        print_preview(to, draft, target)?;
    }
    Ok(())
}

fn main(rt: HostRuntime) -> io::Result<()> {
    let mut from = rt.stdin();
    let mut to = rt.stdout();
    match read_draft(&mut from)? {
        Err(f) => writeln!(to, "RF {f}"),
        Ok(draft) => preview_targets(&mut from, &mut to, &draft),
    }
}
