// An answer's line.
use arrayvec::ArrayVec;
use plan_defs::listed_bits;
use refusal::Refusal;
use request_fields::NoRequest;
use std::io;
use std::io::Write;
use streams::write_field;

// Every answer is shorter: the longest, of SHEET or LAID with as many corridors and levels as there may be, has 108,802 bytes.
const MOST_ANSWER: usize = 131_072;

// A space and 16 digits.
const BITS_FIELD: usize = 17;

// Why a line is not answered with `OK`: two ways to fail, each with an answer of its own.
#[derive(Clone, Copy)]
pub enum Unanswered {
    NoRequest,
    Refused(Refusal),
}

impl From<NoRequest> for Unanswered {
    fn from(_: NoRequest) -> Unanswered {
        Unanswered::NoRequest
    }
}

impl From<Refusal> for Unanswered {
    fn from(refusal: Refusal) -> Unanswered {
        Unanswered::Refused(refusal)
    }
}

// What an answer has a field for.
pub trait Put: Copy {
    // Puts a space and the value.
    fn put(self, out: &mut AnswerLine);
}

impl Put for u32 {
    fn put(self, out: &mut AnswerLine) {
        out.number(self as usize);
    }
}

// Bits, as 16 upper-case hexadecimal digits.
impl Put for u64 {
    fn put(self, out: &mut AnswerLine) {
        out.bits(self);
    }
}

// A figure: its bits, a zero's as plus zero and every NaN's as one.
impl Put for f64 {
    fn put(self, out: &mut AnswerLine) {
        out.bits(listed_bits(self));
    }
}

// The line as far as it is put together. What would not fit is left out.
#[derive(Drop)]
pub struct AnswerLine {
    bytes: ArrayVec<u8, MOST_ANSWER>,
}

impl AnswerLine {
    // listing's `Text::new` is the same line: types of two programs, which share no crate of their own.
    pub fn new() -> AnswerLine {
        AnswerLine {
            bytes: ArrayVec::new(),
        }
    }

    pub fn text(&mut self, text: &str) {
        let _ = self.bytes.write(text.as_bytes());
    }

    // A space and a decimal number.
    pub fn number(&mut self, x: usize) {
        let _ = write_field(&mut self.bytes, x as u64);
    }

    // A space and 16 upper-case hexadecimal digits.
    pub fn bits(&mut self, x: u64) {
        let mut field = [b' '; BITS_FIELD];
        hex::encode_to_slice(x.to_be_bytes(), &mut field[1..]).unwrap();
        field.make_ascii_uppercase();
        let _ = self.bytes.write(&field);
    }

    pub fn field<T: Put>(&mut self, x: T) {
        x.put(self);
    }

    pub fn fields<T: Put>(&mut self, xs: &[T]) {
        for x in xs {
            x.put(self);
        }
    }

    // The answer to a line that has no `OK`.
    pub fn unanswered(&mut self, why: Unanswered) {
        match why {
            Unanswered::NoRequest => self.text("??"),
            Unanswered::Refused(refusal) => {
                let _ = write!(self.bytes, "RF {refusal}");
            }
        }
    }

    // Ends the line and writes it, and is empty then.
    pub fn send<W: Write>(&mut self, to: &mut W) -> io::Result<()> {
        self.text("\n");
        let sent = to.write_all(self.bytes.as_slice());
        self.bytes.clear();
        sent
    }
}
