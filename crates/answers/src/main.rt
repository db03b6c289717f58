// Answers requests on standard input, a line each, with one line each on standard output: the way in for vectors and for the
// comparison with the reference build. Proved: it is safe, and ends where each read and write does. What it reads, asks and
// prints is tested.
#![tactic(auto)]

mod ang;
mod disp;
mod edges;
mod laid;
mod lead;
mod line;
mod place;
mod preview;
mod rows;
mod sheet;
mod single;

use ang::answer_angles;
use arrayvec::ArrayVec;
use disp::answer_dispatch;
use laid::answer_laid;
use lead::answer_leaders;
use line::{AnswerLine, Unanswered};
use place::answer_placement;
use preview::answer_preview;
use request_fields::Fields;
use rows::answer_rows;
use sheet::answer_sheet;
use single::{answer_impedance, answer_square_root};
use std::io;
use std::io::{Read, Write};

const LINE_FEED: u8 = b'\n';

// Every request is shorter: the longest, ROWS with 7,710 figures in each sheet, has 262,204 bytes.
const MOST_LINE: usize = 300_000;

// One more than a request may have, so that a longer line is seen to be longer.
const LINE_ROOM: usize = MOST_LINE + 1;

// How much of the input is read at once.
const MOST_PIECE: usize = 65_536;

// Puts the answer to one line. A line longer than every request is none, whatever it begins with.
fn answer(line: &[u8], out: &mut AnswerLine) -> Result<(), Unanswered> {
    if line.len() > MOST_LINE {
        return Err(Unanswered::NoRequest);
    }
    let mut fields = Fields::of(line);
    match fields.next_text()? {
        b"SQRT" => answer_square_root(fields, out),
        b"IMP" => answer_impedance(fields, out),
        b"LEAD" => answer_leaders(fields, out),
        b"DISP" => answer_dispatch(fields, out),
        b"ANG" => answer_angles(fields, out),
        b"PLACE" => answer_placement(fields, out),
        b"SHEET" => answer_sheet(fields, out),
        b"ROWS" => answer_rows(fields, out),
        b"LAID" => answer_laid(fields, out),
        b"PREV" => answer_preview(fields, out),
        _ => Err(Unanswered::NoRequest),
    }
}

// Answers the lines of an input as its bytes come.
#[derive(Drop)]
struct Answers<'a, W: Write> {
    to: &'a mut W,
    // What has come of the line; what it has no room for is left out.
    line: ArrayVec<u8, LINE_ROOM>,
    out: AnswerLine,
}

impl<'a, W: Write> Answers<'a, W> {
    fn answer_line(&mut self) -> io::Result<()> {
        if let Err(why) = answer(&self.line, &mut self.out) {
            self.out.unanswered(why);
        }
        self.line.clear();
        self.out.send(self.to)
    }

    fn take(&mut self, piece: &[u8]) -> io::Result<()> {
        for byte in piece {
            if *byte == LINE_FEED {
                self.answer_line()?;
            } else {
                let _ = self.line.try_push(*byte);
            }
        }
        Ok(())
    }

    // Answers every line of the input; a last one without a line feed too, unless it is empty. A proved loop has to end and no
    // contract says that an input does, so the pieces are counted, up to more than any run reads.
    fn answer_input<R: Read>(&mut self, from: &mut R) -> io::Result<()> {
        let mut piece = [0u8; MOST_PIECE];
        for _ in 0..u64::MAX {
            let n = from.read(&mut piece)?;
            if n == 0 {
                break;
            }
            self.take(&piece[..n])?;
        }
        if self.line.is_empty() {
            return Ok(());
        }
        self.answer_line()
    }
}

fn main(rt: HostRuntime) -> io::Result<()> {
    let mut answers = Answers {
        to: &mut rt.stdout(),
        line: ArrayVec::new(),
        out: AnswerLine::new(),
    };
    answers.answer_input(&mut rt.stdin())
}
