// The records of a case file: each is a mark of two letters, then its fields. casefile has the marks too, by kind, in a private module: only
// listed operations are public there, and this crate's proof does not wait for the reader's. A public function over kinds, below both, would ask a
// record here for its kind, which is ghost. `layout_of` is what both are proved to follow.
ghost use Rattle.std.specs.Prelude.{◌≡◌, ◌+◌, ◌≤◌, ℕ, length};
ghost use Rattle.casefile_defs.specs.Layout.{size_of};
ghost use Rattle.casefile_defs.specs.Moving.{mark_of};
ghost use Rattle.casefile_defs.specs.declared.Kind.{Kind};
ghost use Rattle.casefile_defs.specs.declared.Kind.TheVariants.{Head, Level, Bus, Generator, Corridor, Line, CappedCorridor, WeighedBus};
ghost use Rattle.casefile_theorems.specs.Writer.{record_bytes, head_row};
ghost use Rattle.casefile_writer.specs.Grown.{Grown};
ghost use Rattle.casefile_writer.specs.Words.{level_row, bus_row, bus_kind, generator_row, corridor_row, corridor_kind, line_row};

use crate::bytes::Bytes;
use casefile_defs::Header;

pub trait Record: Copy {
    // Its kind and its fields' numbers, and the most bytes that one of the type has.
    ghost kind: { Self → Kind };

    ghost fields: { Self → ℕ → ℕ };

    ghost most: { ℕ };

    // Puts it behind the bytes that there are.
    fn put(self, to: &mut Bytes)
        requires { to.old.len + most ≤ length to.old.out.now }
        ensures grown { Grown to.old to.new (size_of (kind self)) (record_bytes (kind self) (fields self)) }
        ensures size { to.new.len ≤ to.old.len + most };
}

// HD mode target buses corridors generators above requested
impl Record for Header {
    ghost kind = { λ h. Head };

    ghost fields = { head_row };

    ghost most = { size_of Head };

    fn put(self, to: &mut Bytes) {
        to.put(b"HD");
        to.put_bytes::<1>(self.mode.number() as u64);
        to.put_bytes::<4>(self.target as u64);
        to.put_bytes::<2>(self.buses as u64);
        to.put_bytes::<2>(self.corridors as u64);
        to.put_bytes::<2>(self.generators as u64);
        to.put_bytes::<1>(self.above as u64);
        to.put_bytes::<1>(self.requested as u64);
    }
}

// LV kV
#[derive(Clone, Copy)]
pub struct Level {
    pub kv: f64,
}

impl Record for Level {
    ghost kind = { λ r. Level };

    ghost fields = { λ r. level_row r.kv };

    ghost most = { size_of Level };

    fn put(self, to: &mut Bytes) {
        to.put(b"LV");
        to.put_figure(self.kv);
    }
}

// BU tier load, or BV tier reading weight
#[derive(Clone, Copy)]
pub struct Bus {
    pub weighed: bool,
    pub tier: u32,
    pub reading: f64,
    pub weight: f64,
}

impl Bus {
    fn mark(self) -> [u8; 2]
        ensures { result ≡ mark_of (bus_kind self.weighed) }
    {
        if self.weighed { *b"BV" } else { *b"BU" }
    }
}

impl Record for Bus {
    ghost kind = { λ r. bus_kind r.weighed };

    ghost fields = { λ r. bus_row r.tier r.reading r.weight };

    ghost most = { size_of WeighedBus };

    fn put(self, to: &mut Bytes) {
        to.put(&self.mark());
        to.put_bytes::<1>(self.tier as u64);
        to.put_figure(self.reading);
        if self.weighed {
            to.put_figure(self.weight);
        }
    }
}

// GE bus slack pmin pmax c1 c2
#[derive(Clone, Copy)]
pub struct Generator {
    pub bus: u32,
    pub slack: u32,
    pub pmin: f64,
    pub pmax: f64,
    pub c1: f64,
    pub c2: f64,
}

impl Record for Generator {
    ghost kind = { λ r. Generator };

    ghost fields = { λ r. generator_row r.bus r.slack r.pmin r.pmax r.c1 r.c2 };

    ghost most = { size_of Generator };

    fn put(self, to: &mut Bytes) {
        to.put(b"GE");
        to.put_bytes::<2>(self.bus as u64);
        to.put_bytes::<1>(self.slack as u64);
        to.put_figure(self.pmin);
        to.put_figure(self.pmax);
        to.put_figure(self.c1);
        to.put_figure(self.c2);
    }
}

// CO a b circuits length share, or where it has a cap CP with the cap behind
#[derive(Clone, Copy)]
pub struct Corridor {
    pub a: u32,
    pub b: u32,
    pub circuits: u32,
    pub length_km: f64,
    pub share: f64,
    pub cap: u32,
}

impl Corridor {
    fn mark(self) -> [u8; 2]
        ensures { result ≡ mark_of (corridor_kind self.cap) }
    {
        if 0 < self.cap { *b"CP" } else { *b"CO" }
    }
}

impl Record for Corridor {
    ghost kind = { λ r. corridor_kind r.cap };

    ghost fields = { λ r. corridor_row r.a r.b r.circuits r.length_km r.share r.cap };

    ghost most = { size_of CappedCorridor };

    fn put(self, to: &mut Bytes) {
        to.put(&self.mark());
        to.put_bytes::<2>(self.a as u64);
        to.put_bytes::<2>(self.b as u64);
        to.put_bytes::<1>(self.circuits as u64);
        to.put_figure(self.length_km);
        to.put_figure(self.share);
        if 0 < self.cap {
            to.put_bytes::<1>(self.cap as u64);
        }
    }
}

// LN r x b rate basis
// line_defs' `Row` has the same five figures, and acceptance's `row_sound` takes them one by one: no crate of the three stands on another.
#[derive(Clone, Copy)]
pub struct Line {
    pub r: f64,
    pub x: f64,
    pub b: f64,
    pub rate: f64,
    pub basis: f64,
}

impl Record for Line {
    ghost kind = { λ r. Line };

    ghost fields = { λ r. line_row r.r r.x r.b r.rate r.basis };

    ghost most = { size_of Line };

    fn put(self, to: &mut Bytes) {
        to.put(b"LN");
        to.put_figure(self.r);
        to.put_figure(self.x);
        to.put_figure(self.b);
        to.put_figure(self.rate);
        to.put_basis(self.basis);
    }
}
