// Moving a case file into the other form of buses: bytes are copied, and each bus is put anew.
ghost use Rattle.std.specs.Prelude.{◌≡◌, ◌+◌, ◌-◌, ◌*◌, ◌≤◌, false, min, length, replicate};
ghost use Rattle.loops.specs.Loops.{fault};
ghost use Rattle.loops.specs.Parts.{part, put};
ghost use Rattle.casefile_defs.specs.Bounds.{most_bytes};
ghost use Rattle.casefile_defs.specs.Layout.{size_of, weighs};
ghost use Rattle.casefile_defs.specs.Moving.{called_bytes, weight_of, bus_as, buses_as, file_as, fitted, moved_as};
ghost use Rattle.casefile_defs.specs.Reading.{Small, levels};
ghost use Rattle.casefile_defs.specs.Tables.{levels_at};
ghost use Rattle.casefile.specs.Movable.{Kept, AllWeighed, Movable, keeps, moved_by};

use crate::columns::Table;
use crate::record;
use crate::record::{mark, size, weighs};
use crate::scan::read_as;
use casefile_defs::{HEAD_BYTES, Header, Kind, LEVEL_BYTES, MOST_BYTES, Wanted};
use loops::first_fault;
use refusal::Refusal;

// The bytes of tier and load, or of tier and reading.
const CALLED: usize = record::U8 + record::FIGURE;

// The bytes of the figure 1, and its bits.
static WEIGHT_OF_ONE: [u8; record::FIGURE] = [0, 0, 0, 0, 0, 0, 0xf0, 0x3f];

const ONE: u64 = 0x3ff0_0000_0000_0000;

// Puts a part's bytes at a place.
fn put_part(part: &[u8], out: &mut [u8], to: usize)
    requires { to + length part.now ≤ length out.old }
    ensures { out.new ≡ put out.old to part.now }
{
    out[to..to + part.len()].copy_from_slice(part);
}

// The bytes of a weight of 1, where a kind has a weight.
fn weight_of(kind: Kind) -> &'static [u8]
    ensures { result.now ≡ weight_of kind }
{
    if weighs(kind) { &WEIGHT_OF_ONE } else { &[] }
}

// A bus's record as one of a kind.
#[tactic(auto, using(crate::proofs::Copies::bus_put))]
fn put_bus(file: &[u8], at: usize, kind: Kind, out: &mut [u8], to: usize)
    requires { (at + (2 + called_bytes) ≤ length file.now) × (to + (2 + called_bytes + length (weight_of kind)) ≤ length out.old) }
    ensures { out.new ≡ put out.old to (bus_as kind file.now at) }
{
    let called = at + record::MARK;
    put_part(&mark(kind), out, to);
    put_part(&file[called..called + CALLED], out, to + record::MARK);
    put_part(weight_of(kind), out, to + (record::MARK + CALLED));
}

// A table's buses as records of a kind; where they end in the output. That the kind is one of buses, by its size, is asked of what one call is handed, here and
// of the two below: a type of these two kinds alone would be turned into `Kind` for `mark`, `size` and `weighs`.
fn put_buses(buses: &Table, kind: Kind, out: &mut [u8]) -> usize
    requires buses { buses.now.kind ≡ Kind.Bus }
    requires kept { Kept buses.now.file buses.now.at buses.now.count }
    requires whole { size_of kind ≡ 2 + called_bytes + length (weight_of kind) }
    requires fits { buses.now.at + length (buses_as kind buses.now.file buses.now.at buses.now.count) ≤ length out.old }
    ensures end { result ≡ buses.now.at + length (buses_as kind buses.now.file buses.now.at buses.now.count) }
    ensures bytes { out.new ≡ put out.old buses.now.at (buses_as kind buses.now.file buses.now.at buses.now.count) }
{
    let mut there = buses.at;
    for i in 0..buses.count {
        put_bus(buses.file, buses.start(i), kind, out, there);
        there += size(kind);
    }
    there
}

// The file of a table's buses with them as records of a kind, in an output of zeros.
fn put_file(buses: &Table, kind: Kind, out: &mut [u8])
    requires movable { Movable buses.now }
    requires whole { size_of kind ≡ 2 + called_bytes + length (weight_of kind) }
    requires clear { out.old ≡ replicate most_bytes 0 }
    ensures { out.new ≡ fitted (file_as kind buses.now.file buses.now.at buses.now.count) }
{
    put_part(&buses.file[..buses.at], out, 0);
    let there = put_buses(buses, kind, out);
    let rest = &buses.file[buses.end..];
    let room = out.len() - there;
    put_part(&rest[..rest.len().min(room)], out, there);
}

// Where the buses begin: the levels before them are all of one length.
fn buses_at(h: Header) -> usize
    requires { Small h }
    ensures { result ≡ levels_at + levels h * size_of Kind.Level }
{
    HEAD_BYTES + (h.above + h.requested) * LEVEL_BYTES
}

// The first bus whose weight is lost in a record of a kind: one that is not 1, where the kind has none.
fn first_lost(buses: &Table, kind: Kind) -> Option<usize>
    requires buses { buses.now.kind ≡ Kind.Bus }
    requires weighed { weighs kind ≡ false → AllWeighed buses.now.file buses.now.at buses.now.count }
    ensures { result ≡ fault (keeps kind buses.now.file buses.now.at) buses.now.count }
{
    first_fault(
        buses.count,
        |i| weighs(kind) || buses.bits(i, record::BUS_WEIGHT) == ONE,
    )
}

// A file in which only one form of buses is wanted, with its buses as records of a kind: of BV, where every weight is 1, or of BU.
pub fn moved(file: &[u8], wanted: Wanted, kind: Kind, out: &mut [u8]) -> Result<(), Refusal>
    requires whole { size_of kind ≡ 2 + called_bytes + length (weight_of kind) }
    requires weighed { weighs kind ≡ false → wanted ≡ Wanted.Weighed }
    ensures { moved_as result out.new ≡ moved_by wanted kind file.now out.old }
{
    if out.len() != MOST_BYTES {
        return Err(Refusal::Length);
    }
    let said = read_as(file, wanted).reading;
    out.fill(0);
    let h = said?;
    let buses = Table::new(file, Kind::Bus, buses_at(h), h.buses);
    if let Some(i) = first_lost(&buses, kind) {
        return Err(Refusal::Weight(i));
    }
    put_file(&buses, kind, out);
    Ok(())
}
