// The text of the listing, in fixed memory. Each method puts something behind what there is.
ghost use Rattle.std.specs.Prelude.{◌≡◌, ◌+◌, ◌≤◌, [], ◌++◌, length};
ghost use Rattle.listing_defs.specs.Text.{hexadecimal, number, figure, field};
ghost use Rattle.listing_defs.specs.Lines.{line_of, most_text};

use arrayvec::ArrayVec;
use listing_defs::Field;
use loops::{MOST_BUSES, MOST_CORRIDORS, MOST_GENERATORS, MOST_LEVELS};
use plan_defs::listed_bits;
use std::marker::Model;

// The most bytes of PL and of any other line, and the most of the other lines.
const PLAN_ROOM: usize = 213;

const LINE_ROOM: usize = 79;

const MOST_LINES: usize = MOST_LEVELS
    + MOST_BUSES
    + MOST_BUSES
    + MOST_GENERATORS
    + MOST_CORRIDORS
    + 1;

const MOST_TEXT: usize = PLAN_ROOM + LINE_ROOM * MOST_LINES;

// The hexadecimal digits of a figure.
const FIGURE_DIGITS: usize = 16;

// The most digits of a number.
const NUMBER_DIGITS: usize = 20;

#[derive(Drop)]
pub struct Text {
    bytes: ArrayVec<u8, MOST_TEXT>,
}

impl Model for Text {
    ghost use Rattle.std.specs.Prelude.{ℕ, List};

    ghost Value = { List ℕ };

    ghost view = { λ t. t.bytes.items };
}

impl Text {
    // answers' `AnswerLine::new` is the same line: types of two programs, which share no crate of their own.
    pub fn new() -> Self
        ensures { result ≡ [] }
    {
        Text {
            bytes: ArrayVec::new(),
        }
    }

    pub fn as_slice(&self) -> &[u8]
        ensures { result.now ≡ self.now }
    {
        self.bytes.as_slice()
    }

    fn put(&mut self, bytes: &[u8])
        requires { length self.old + length bytes.now ≤ most_text }
        ensures { self.new ≡ self.old ++ bytes.now }
    {
        self.bytes.try_extend_from_slice(bytes).unwrap()
    }

    // A space and a decimal number.
    fn put_number(&mut self, n: u64)
        requires { length self.old + length (number n) ≤ most_text }
        ensures { self.new ≡ self.old ++ number n }
    {
        let mut digits = [0; NUMBER_DIGITS];
        let size = streams::decimal(n, &mut digits);
        self.put(b" ");
        self.put(&digits[..size])
    }

    // A space and a figure.
    fn put_figure(&mut self, x: f64)
        requires { length self.old + length (figure x) ≤ most_text }
        ensures { self.new ≡ self.old ++ figure x }
    {
        let digits = hexadecimal(listed_bits(x));
        self.put(b" ");
        self.put(&digits)
    }

    fn put_field(&mut self, f: Field)
        requires { length self.old + length (field f) ≤ most_text }
        ensures { self.new ≡ self.old ++ field f }
    {
        match f {
            Field::Number(n) => self.put_number(n),
            Field::Figure(x) => self.put_figure(x),
        }
    }

    // A line: its mark, its fields, the line feed.
    pub fn put_line(&mut self, mark: &[u8; 2], fields: &[Field])
        requires { length self.old + length (line_of mark.now fields.now) ≤ most_text }
        ensures { self.new ≡ self.old ++ line_of mark.now fields.now }
    {
        self.put(mark);
        for f in fields {
            self.put_field(*f);
        }
        self.put(b"\n")
    }
}

// Sixteen upper-case digits.
#[tactic(auto, using(crate::proofs::Numbers::figure_digits))]
fn hexadecimal(n: u64) -> [u8; FIGURE_DIGITS]
    ensures { result ≡ hexadecimal 16 n }
{
    let mut digits = [0; FIGURE_DIGITS];
    hex::encode_to_slice(n.to_be_bytes(), &mut digits).unwrap();
    digits.make_ascii_uppercase();
    digits
}
