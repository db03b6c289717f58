// One record of the file: where its fields stand, and what can be wrong with it.
ghost use Rattle.std.specs.Prelude.{◌≡◌, ◌+◌, ◌≤◌, length};
ghost use Rattle.casefile_defs.specs.Layout.{size_of, layout_of, codes_ok, marked, standing, weighs};
ghost use Rattle.casefile_defs.specs.Moving.{mark_of};
ghost use Rattle.casefile_defs.specs.Reading.{record_at};

use crate::bytes::word;
use casefile_defs::{
    BUS_BYTES, CAPPED_CORRIDOR_BYTES, CORRIDOR_BYTES, GENERATOR_BYTES, HEAD_BYTES, Kind,
    LEVEL_BYTES, LINE_BYTES, WEIGHED_BUS_BYTES,
};
use refusal::Refusal;

// The bytes of a mark, of a u8, a u16 and a u32, and of a figure.
pub const MARK: usize = 2;

pub const U8: usize = 1;

pub const U16: usize = 2;

pub const U32: usize = 4;

pub const FIGURE: usize = 8;

// Where each field starts in its record.
pub const HEAD_MODE: usize = MARK;

pub const HEAD_TARGET: usize = HEAD_MODE + U8;

pub const HEAD_BUSES: usize = HEAD_TARGET + U32;

pub const HEAD_CORRIDORS: usize = HEAD_BUSES + U16;

pub const HEAD_GENERATORS: usize = HEAD_CORRIDORS + U16;

pub const HEAD_ABOVE: usize = HEAD_GENERATORS + U16;

pub const HEAD_REQUESTED: usize = HEAD_ABOVE + U8;

pub const LEVEL_KV: usize = MARK;

pub const BUS_TIER: usize = MARK;

pub const BUS_READING: usize = BUS_TIER + U8;

pub const BUS_WEIGHT: usize = BUS_BYTES;

pub const GENERATOR_BUS: usize = MARK;

pub const GENERATOR_SLACK: usize = GENERATOR_BUS + U16;

pub const GENERATOR_PMIN: usize = GENERATOR_SLACK + U8;

pub const GENERATOR_PMAX: usize = GENERATOR_PMIN + FIGURE;

pub const GENERATOR_C1: usize = GENERATOR_PMAX + FIGURE;

pub const GENERATOR_C2: usize = GENERATOR_C1 + FIGURE;

pub const CORRIDOR_A: usize = MARK;

pub const CORRIDOR_B: usize = CORRIDOR_A + U16;

pub const CORRIDOR_CIRCUITS: usize = CORRIDOR_B + U16;

pub const CORRIDOR_LENGTH: usize = CORRIDOR_CIRCUITS + U8;

pub const CORRIDOR_SHARE: usize = CORRIDOR_LENGTH + FIGURE;

pub const CORRIDOR_CAP: usize = CORRIDOR_BYTES;

pub const LINE_R: usize = MARK;

const LINE_X: usize = LINE_R + FIGURE;

const LINE_B: usize = LINE_X + FIGURE;

const LINE_RATE: usize = LINE_B + FIGURE;

pub const LINE_BASIS: usize = LINE_RATE + FIGURE;

// The highest mode, slack and basis.
const LAST_MODE: u64 = 5;

const LAST_SLACK: u64 = 1;

const LAST_BASIS: u64 = 1;

// A record's length, its mark counted.
pub fn size(kind: Kind) -> usize
    ensures { result ≡ size_of kind }
{
    match kind {
        Kind::Head => HEAD_BYTES,
        Kind::Level => LEVEL_BYTES,
        Kind::Bus => BUS_BYTES,
        Kind::Generator => GENERATOR_BYTES,
        Kind::Corridor => CORRIDOR_BYTES,
        Kind::Line => LINE_BYTES,
        Kind::CappedCorridor => CAPPED_CORRIDOR_BYTES,
        Kind::WeighedBus => WEIGHED_BUS_BYTES,
    }
}

// A record's mark: two letters.
#[tactic(auto, unfolding(casefile_defs::specs::Layout::layout_of))]
pub fn mark(kind: Kind) -> [u8; MARK]
    ensures { result ≡ mark_of kind }
{
    match kind {
        Kind::Head => *b"HD",
        Kind::Level => *b"LV",
        Kind::Bus => *b"BU",
        Kind::Generator => *b"GE",
        Kind::Corridor => *b"CO",
        Kind::Line => *b"LN",
        Kind::CappedCorridor => *b"CP",
        Kind::WeighedBus => *b"BV",
    }
}

// Whether a record's mark stands at a place. Letter by letter, as the definition has it: the clause of `starts_with` speaks of lists in step.
fn mark_ok(file: &[u8], kind: Kind, at: usize) -> bool
    requires { at + 2 ≤ length file.now }
    ensures { result ≡ marked kind file.now at }
{
    let letters = mark(kind);
    (file[at] == letters[0]) & (file[at + 1] == letters[1])
}

// Whether mode, slack or basis of the record at a place is within its bound.
fn codes_ok(file: &[u8], kind: Kind, at: usize) -> bool
    requires { at + size_of kind ≤ length file.now }
    ensures { result ≡ codes_ok kind file.now at }
{
    match kind {
        Kind::Head => word(file, at + HEAD_MODE, U8) <= LAST_MODE,
        Kind::Generator => word(file, at + GENERATOR_SLACK, U8) <= LAST_SLACK,
        Kind::Line => word(file, at + LINE_BASIS, U8) <= LAST_BASIS,
        Kind::Level | Kind::Bus | Kind::Corridor | Kind::CappedCorridor | Kind::WeighedBus => true,
    }
}

// Whether a record's mark stands at a place, wherever that is: a mark that is cut is none.
pub fn bears(file: &[u8], kind: Kind, at: usize) -> bool
    ensures { result ≡ marked kind file.now at }
{
    MARK <= file.len() && at <= file.len() - MARK && mark_ok(file, kind, at)
}

// The record that stands at a place where one of a kind is due, by its mark: a CP for a CO, a BV for a BU.
pub fn standing(file: &[u8], kind: Kind, at: usize) -> Kind
    ensures { result ≡ standing kind file.now at }
{
    match kind {
        Kind::Bus if bears(file, Kind::WeighedBus, at) => Kind::WeighedBus,
        Kind::Corridor if bears(file, Kind::CappedCorridor, at) => Kind::CappedCorridor,
        _ => kind,
    }
}

// Whether a record is a BV.
pub fn weighs(kind: Kind) -> bool
    ensures { result ≡ weighs kind }
{
    matches!(kind, Kind::WeighedBus)
}

// Record r of the file, at a place: past it, or its first fault.
#[tactic(auto, using(casefile_defs::proofs::Records::cut_at, casefile_defs::proofs::Records::mark_at, casefile_defs::proofs::Records::code_at, casefile_defs::proofs::Records::good_at))]
pub fn record_at(file: &[u8], kind: Kind, r: usize, at: usize) -> Result<usize, Refusal>
    ensures { result ≡ record_at kind file.now r at }
{
    let n = size(kind);
    if file.len() < n || file.len() - n < at {
        return Err(Refusal::Cut(r));
    }
    if !mark_ok(file, kind, at) {
        return Err(Refusal::Mark(r));
    }
    if !codes_ok(file, kind, at) {
        return Err(Refusal::Code(r));
    }
    Ok(at + n)
}
