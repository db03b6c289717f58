// The records of a table, and its columns: a place for each record, and zeros past them. A column is named by its field's place in the record, a number's by its width too.
ghost use Rattle.std.specs.Prelude.{◌≡◌, ◌+◌, ◌<◌, ◌≤◌, length};
ghost use Rattle.loops.specs.Bounds.{most_corridors};
ghost use Rattle.loops.specs.Loops.{tab};
ghost use Rattle.casefile_defs.specs.Layout.{size_of, end_of, word};
ghost use Rattle.casefile_defs.specs.Tables.{number_at, figure_at, weight_at, number_in, figure_in, numbers_of, weights, cap_field};
ghost use Rattle.casefile.specs.Records.{Records, records_of, start_of, cap_at, Room, Stored};

use crate::bytes::{eight, word};
use crate::record;
use crate::record::{bears, size, standing};
use casefile_defs::{Kind, MOST_CORRIDORS};
use loops::fill_first;
use std::marker::Model;
use std::num::f64_from_bits_with_nan;

// The most records of a table that is read by their starts: there are as many buses as corridors at most, and fewer levels and generators.
const MOST_RECORDS: usize = MOST_CORRIDORS;

// So many records from a place on, where each of them starts, and where the last one ends. So a record's mark is looked at once, and not again for each
// column. A clause sees which records they are.
#[derive(Drop)]
pub struct Table<'a> {
    pub file: &'a [u8],
    pub kind: Kind,
    pub at: usize,
    pub count: usize,
    pub starts: [usize; MOST_RECORDS],
    pub end: usize,
}

impl<'a> Model for Table<'a> {
    ghost Value = { Records };

    ghost view = { λ t. records_of t.kind t.file.now t.at t.count };

    ghost invariant = { λ t. Stored (records_of t.kind t.file.now t.at t.count) t.starts t.end };
}

impl<'a> Table<'a> {
    // The bound on the count is asked here and of the four that read a table: it is a number of one call, and no table is there yet to hold the fact.
    #[tactic(auto, using(crate::proofs::Stored::none_stored, crate::proofs::Stored::first_start))]
    pub fn new(file: &'a [u8], kind: Kind, at: usize, count: usize) -> Self
        requires room { Room kind file.now at count }
        requires few { count ≤ most_corridors }
        ensures { result ≡ records_of kind file.now at count }
    {
        let mut starts = [0; MOST_RECORDS];
        let mut end = at;
        // `starts.iter_mut().take(count)` was tried: while the array is lent so, an invariant has no name for what is stored in it.
        for i in 0..count {
            starts[i] = end;
            end = end_of(file, kind, end);
        }
        Table {
            file,
            kind,
            at,
            count,
            starts,
            end,
        }
    }

    // Where record i starts.
    #[tactic(auto, unfolding(crate::specs::Records::Starts))]
    pub fn start(&self, i: usize) -> usize
        requires { i < self.now.count }
        ensures place { result ≡ start_of self.now i }
        ensures whole { end_of self.now.kind self.now.file result ≤ length self.now.file }
    {
        let starts = &self.starts;
        starts[i]
    }

    // Where the last record ends.
    pub fn end(&self) -> usize
        ensures { result ≡ start_of self.now self.now.count }
    {
        self.end
    }

    // The number of eight bytes at a distance into record i.
    pub fn bits(&self, i: usize, offset: usize) -> u64
        requires record { i < self.now.count }
        requires inside { start_of self.now i + offset + 8 ≤ length self.now.file }
        ensures { result ≡ word 8 (start_of self.now i + offset) self.now.file }
    {
        eight(self.file, self.start(i) + offset)
    }

    // ---- a field of record i
    #[tactic(auto, using(casefile_defs::proofs::Spots::standing_least, crate::proofs::Stored::number_there))]
    fn number(&self, i: usize, offset: usize, width: usize) -> u32
        requires record { i < self.now.count }
        requires inside { offset + width ≤ size_of self.now.kind }
        requires narrow { width ≤ 4 }
        ensures { result ≡ number_at self.now.kind self.now.file (start_of self.now i) offset width }
    {
        word(self.file, self.start(i) + offset, width) as u32
    }

    #[tactic(auto, using(casefile_defs::proofs::Spots::standing_least), unfolding(casefile_defs::specs::Tables::figure_at))]
    fn figure(&self, i: usize, offset: usize) -> f64
        requires record { i < self.now.count }
        requires inside { offset + 8 ≤ size_of self.now.kind }
        ensures { result ≡ figure_at self.now.file (start_of self.now i) offset }
    {
        f64_from_bits_with_nan(eight(self.file, self.start(i) + offset))
    }

    // A BU has weight 1.
    #[tactic(auto, unfolding(casefile_defs::specs::Tables::weight_at, casefile_defs::specs::Tables::figure_at))]
    fn weight(&self, i: usize) -> f64
        requires record { i < self.now.count }
        requires bus { self.now.kind ≡ Kind.Bus }
        ensures { result ≡ weight_at self.now.file (start_of self.now i) }
    {
        let at = self.start(i);
        if bears(self.file, Kind::WeighedBus, at) {
            return f64_from_bits_with_nan(eight(self.file, at + record::BUS_WEIGHT));
        }
        1.0
    }

    // A CO has no cap, and 0 stands for it.
    #[tactic(auto, using(crate::proofs::Stored::cap_there, crate::proofs::Stored::no_cap))]
    fn cap(&self, i: usize) -> u32
        requires record { i < self.now.count }
        requires corridor { self.now.kind ≡ Kind.Corridor }
        ensures { result ≡ cap_at self.now.file (start_of self.now i) }
    {
        let at = self.start(i);
        let file = self.file;
        if bears(file, Kind::CappedCorridor, at) {
            return file[at + record::CORRIDOR_CAP] as u32;
        }
        0
    }

    // ---- a column, with zeros past the records
    // What these four share is `fill_first`. They differ in the element (u32 or f64), in what is read of a record, and in what they ask: a place in the record or
    // a kind.
    pub fn fill_numbers(&self, offset: usize, width: usize, out: &mut [u32])
        requires inside { offset + width ≤ size_of self.now.kind }
        requires narrow { width ≤ 4 }
        ensures { out.new ≡ tab (length out.old) (number_in self.now.kind self.now.file self.now.at self.now.count offset width) }
    {
        fill_first(out, self.count, 0, |i| self.number(i, offset, width));
    }

    pub fn fill_figures(&self, offset: usize, out: &mut [f64])
        requires { offset + 8 ≤ size_of self.now.kind }
        ensures { out.new ≡ tab (length out.old) (figure_in self.now.kind self.now.file self.now.at self.now.count offset) }
    {
        fill_first(out, self.count, 0.0, |i| self.figure(i, offset));
    }

    pub fn fill_weights(&self, out: &mut [f64])
        requires { self.now.kind ≡ Kind.Bus }
        ensures { out.new ≡ weights self.now.file self.now.at self.now.count (length out.old) }
    {
        fill_first(out, self.count, 0.0, |i| self.weight(i));
    }

    pub fn fill_caps(&self, out: &mut [u32])
        requires { self.now.kind ≡ Kind.Corridor }
        ensures { out.new ≡ numbers_of Kind.Corridor Kind.CappedCorridor cap_field self.now.file self.now.at self.now.count (length out.old) }
    {
        fill_first(out, self.count, 0, |i| self.cap(i));
    }
}

// Where the record ends that stands at a place where one of a kind is due.
fn end_of(file: &[u8], kind: Kind, at: usize) -> usize
    requires { end_of kind file.now at ≤ length file.now }
    ensures { result ≡ end_of kind file.now at }
{
    at + size(standing(file, kind, at))
}
