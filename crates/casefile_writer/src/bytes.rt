// The bytes of a file so far: the first of a lent buffer. Each method puts something behind them.
ghost use Rattle.std.specs.Prelude.{◌≡◌, ◌+◌, ◌≤◌, length};
ghost use Rattle.std.specs.Float.{binary64};
ghost use Rattle.std.specs.Float.Ieee.{to_bits};
ghost use Rattle.casefile_theorems.specs.Writer.{bytes};
ghost use Rattle.casefile_writer.specs.Grown.{Grown};
ghost use Rattle.casefile_writer.specs.Words.{basis_number};

use std::num::f64_to_bits_with_nan;

#[derive(Drop)]
pub struct Bytes<'a> {
    out: &'a mut [u8],
    len: usize,
}

impl<'a> Bytes<'a> {
    pub fn new(out: &'a mut [u8]) -> Bytes<'a>
        ensures same_reference { result.out.ghost_name ≡ out.entry.ghost_name }
        ensures room { result.out.now ≡ out.old }
        ensures none { result.len ≡ 0 }
    {
        Bytes { out, len: 0 }
    }

    pub fn len(&self) -> usize
        ensures { result ≡ self.now.len }
    {
        self.len
    }

    pub fn put(&mut self, bytes: &[u8])
        requires { self.old.len + length bytes.now ≤ length self.old.out.now }
        ensures { Grown self.old self.new (length bytes.now) bytes.now }
    {
        let end = self.len + bytes.len();
        self.out[self.len..end].copy_from_slice(bytes);
        self.len = end;
    }

    // The lowest bytes of a number, so many of them, the least significant first.
    pub fn put_bytes<const WIDTH: usize>(&mut self, n: u64)
        requires width_in_bounds { WIDTH ≤ 8 }
        requires room { self.old.len + WIDTH ≤ length self.old.out.now }
        ensures { Grown self.old self.new WIDTH (bytes WIDTH n) }
    {
        self.put(&n.to_le_bytes()[..WIDTH])
    }

    // Its bits; every NaN has the same.
    pub fn put_figure(&mut self, x: f64)
        requires { self.old.len + 8 ≤ length self.old.out.now }
        ensures { Grown self.old self.new 8 (bytes 8 (to_bits binary64 x)) }
    {
        self.put_bytes::<8>(f64_to_bits_with_nan(x))
    }

    // A line's basis, 0 or 1.
    pub fn put_basis(&mut self, x: f64)
        requires { self.old.len + 1 ≤ length self.old.out.now }
        ensures { Grown self.old self.new 1 (bytes 1 (basis_number x)) }
    {
        self.put_bytes::<1>(basis_number(x))
    }
}

fn basis_number(x: f64) -> u64
    ensures { result ≡ basis_number x }
{
    if x == 0.0 { 0 } else { 1 }
}
