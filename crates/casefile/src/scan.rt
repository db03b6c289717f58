// The walk over the file: header and counts, each table's records, and the bytes after the last.
ghost use Rattle.std.specs.Prelude.{◌≡◌, ◌<◌, ◌≤◌, length, Ok};
ghost use Rattle.casefile_defs.specs.Layout.{size_of};
ghost use Rattle.casefile_defs.specs.Reading.{stepped, walked, header_of, counts_ok, Small, bus_form, tables_walked, end_read, read_as};
ghost use Rattle.casefile_defs.specs.Looks.{looked_at, words_looked, bytes_looked};
ghost use Rattle.casefile.specs.Read.{ended};

use crate::bytes::{eight, word};
use crate::record;
use crate::record::{bears, record_at, standing, weighs};
use casefile_defs::{CaseRead, Header, Kind, Looked, Wanted};
use loops::{MOST_TARGET, first_fault};
use mode::PlanMode;
use refusal::Refusal;

// The bytes of a word.
const WORD: usize = 8;

// Where a record of a kind is due, the one that stands there is read: past it, or its first fault. A BV in a file of BU, or a BU in a file of BV, has a wrong mark.
#[tactic(auto, using(crate::proofs::Steps::step_fault, crate::proofs::Steps::step_unsuited, crate::proofs::Steps::step_on))]
fn step(file: &[u8], at: usize, kind: Kind, weighed: bool, r: usize) -> Result<usize, Refusal>
    ensures { result ≡ stepped kind weighed file.now r (Ok at) }
{
    let stands = standing(file, kind, at);
    let next = record_at(file, stands, r, at)?;
    if weighs(stands) != weighed {
        return Err(Refusal::Mark(r));
    }
    Ok(next)
}

// Records start to end - 1, of one kind each: past the last, or the first fault.
#[tactic(auto, using(crate::proofs::Steps::walk_fault, crate::proofs::Steps::walk_on, crate::proofs::Steps::walk_end))]
fn walk_kind(
    file: &[u8],
    from: usize,
    kind: Kind,
    weighed: bool,
    start: usize,
    end: usize,
) -> Result<usize, Refusal>
    ensures { result ≡ walked kind weighed start end file.now (Ok from) }
{
    let mut at = from;
    for r in start..end {
        at = step(file, at, kind, weighed, r)?;
    }
    Ok(at)
}

// The header of a file that is long enough for one.
fn header_of(file: &[u8]) -> Header
    requires { size_of Kind.Head ≤ length file.now }
    ensures value { result ≡ header_of file.now }
    ensures small { (result.above < 256) × (result.requested < 256) }
{
    // a number that no mode has is refused with the record
    let number = word(file, record::HEAD_MODE, record::U8);
    let mode = PlanMode::try_from(number).unwrap_or(PlanMode::ObserveServing);
    let target = word(file, record::HEAD_TARGET, record::U32) as u32;
    let buses = word(file, record::HEAD_BUSES, record::U16) as usize;
    let corridors = word(file, record::HEAD_CORRIDORS, record::U16) as usize;
    let generators = word(file, record::HEAD_GENERATORS, record::U16) as usize;
    let above = word(file, record::HEAD_ABOVE, record::U8) as usize;
    let requested = word(file, record::HEAD_REQUESTED, record::U8) as usize;
    Header {
        mode,
        target,
        buses,
        corridors,
        generators,
        above,
        requested,
    }
}

// Whether counts and target are within document 01's bounds.
fn counts_ok(h: Header) -> bool
    requires { (h.above < 256) × (h.requested < 256) }
    ensures { result ≡ counts_ok h }
{
    (h.buses <= casefile_defs::MOST_BUSES)
        & (h.corridors <= casefile_defs::MOST_CORRIDORS)
        & (h.generators <= casefile_defs::MOST_GENERATORS)
        & (1 <= h.requested)
        & (h.above + h.requested <= casefile_defs::MOST_LEVELS)
        & (h.target <= MOST_TARGET)
}

// Whether a file's buses are to be BV, where the first of them begins at a place: by its mark, or by what is wanted.
#[tactic(auto, unfolding(casefile_defs::specs::Reading::bus_form))]
fn bus_form(file: &[u8], wanted: Wanted, at: usize) -> bool
    ensures { result ≡ bus_form wanted file.now (Ok at) }
{
    match wanted {
        Wanted::Either => bears(file, Kind::WeighedBus, at),
        Wanted::Plain => false,
        Wanted::Weighed => true,
    }
}

// The records after the header, table by table.
#[tactic(auto, using(casefile_defs::proofs::Counts::lines_small, crate::proofs::Steps::walk_stays), unfolding(casefile_defs::specs::Reading::tables_walked))]
fn walk_tables(file: &[u8], h: Header, wanted: Wanted, from: usize) -> Result<usize, Refusal>
    requires { Small h }
    ensures { result ≡ tables_walked wanted h file.now (Ok from) }
{
    let levels = h.above + h.requested;
    let buses = 1 + levels;
    let generators = buses + h.buses;
    let corridors = generators + h.generators;
    let lines = corridors + h.corridors;
    let end = lines + h.corridors * levels;
    let first_bus = walk_kind(file, from, Kind::Level, false, 1, buses)?;
    let weighed = bus_form(file, wanted, first_bus);
    let first_generator = walk_kind(file, first_bus, Kind::Bus, weighed, buses, generators)?;
    let first_corridor = walk_kind(
        file,
        first_generator,
        Kind::Generator,
        false,
        generators,
        corridors,
    )?;
    let first_line = walk_kind(
        file,
        first_corridor,
        Kind::Corridor,
        false,
        corridors,
        lines,
    )?;
    walk_kind(file, first_line, Kind::Line, false, lines, end)
}

// Past the words of zeros from a place on, the word after them looked at too. `past_bytes` differs by the stride and by what it reads there: of one function
// over the stride the sum has no bound.
fn past_words(file: &[u8], at: usize) -> Looked
    ensures { result ≡ words_looked file.now at }
{
    let words = file.len().saturating_sub(at) / WORD;
    let zeros = first_fault(words, |k| eight(file, at + WORD * k) == 0).unwrap_or(words);
    Looked {
        at: at + WORD * zeros,
        looks: (zeros + 1).min(words),
    }
}

// Past the zeros from a place on, byte by byte, the byte after them looked at too. See `past_words` for why it is one of two.
fn past_bytes(file: &[u8], at: usize) -> Looked
    ensures { result ≡ bytes_looked file.now at }
{
    let bytes = file.len().saturating_sub(at);
    let zeros = first_fault(bytes, |i| file[at + i] == 0).unwrap_or(bytes);
    Looked {
        at: at + zeros,
        looks: (zeros + 1).min(bytes),
    }
}

// The first byte from a place on that is not zero, by words and then by bytes.
#[tactic(auto, using(crate::proofs::Looks::both_looked, crate::proofs::Looks::few))]
fn trailing(file: &[u8], at: usize) -> Looked
    ensures { result ≡ looked_at file.now at }
{
    let words = past_words(file, at);
    let bytes = past_bytes(file, words.at);
    Looked {
        at: bytes.at,
        looks: words.looks + bytes.looks,
    }
}

// What follows the last record, which ends at a place: nothing but zeros.
#[tactic(auto, using(casefile_defs::proofs::Walks::end_trailing, casefile_defs::proofs::Walks::end_good))]
fn end_read(file: &[u8], h: Header, at: usize) -> CaseRead
    ensures { result ≡ end_read h file.now (Ok at) }
{
    let zeros = trailing(file, at);
    let reading = if zeros.at < file.len() {
        Err(Refusal::Trailing(zeros.at))
    } else {
        Ok(h)
    };
    CaseRead {
        reading,
        looks: zeros.looks,
    }
}

// The header, and where the last record ends; or the first refusal.
#[tactic(auto, using(casefile_defs::proofs::Records::passed, casefile_defs::proofs::Counts::small_of, crate::proofs::Steps::read_long, crate::proofs::Steps::read_fault, crate::proofs::Steps::read_count, crate::proofs::Steps::read_tables, crate::proofs::Steps::read_end))]
fn records_read(file: &[u8], wanted: Wanted) -> Result<(Header, usize), Refusal>
    ensures { ended file.now result ≡ read_as wanted file.now }
{
    if casefile_defs::MOST_BYTES < file.len() {
        return Err(Refusal::FileLength);
    }
    let at = record_at(file, Kind::Head, 0, 0)?;
    let h = header_of(file);
    if !counts_ok(h) {
        return Err(Refusal::Count);
    }
    let end = walk_tables(file, h, wanted, at)?;
    Ok((h, end))
}

// The header, or the first refusal, and the words and bytes looked at after the last record.
#[tactic(auto, unfolding(crate::specs::Read::ended))]
pub fn read_as(file: &[u8], wanted: Wanted) -> CaseRead
    ensures { result ≡ read_as wanted file.now }
{
    match records_read(file, wanted) {
        Err(f) => CaseRead {
            reading: Err(f),
            looks: 0,
        },
        Ok((h, at)) => end_read(file, h, at),
    }
}
