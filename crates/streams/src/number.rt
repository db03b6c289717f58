// A number as text: its decimal digits in ASCII, with no zero in front.
ghost use Rattle.std.specs.Prelude.{◌≡◌, ℕ, ◌∷◌, take, drop, OnOk};
ghost use Rattle.std.specs.Io.KnownBytes.{Appends};
ghost use Rattle.streams.specs.Counts.{IsPrefixLen};
ghost use Rattle.streams.specs.Digits.{last_digits, IsDigitCount};

use std::io;
use std::io::Write;

// Puts n's decimal digits at the start of out, and answers how many there are.
pub fn decimal(n: u64, out: &mut [u8; 20]) -> usize
    ensures in_bounds { IsPrefixLen result out.new }
    ensures len { IsDigitCount 10 1 n result }
    ensures digits { take result out.new ≡ last_digits 10 result n }
    ensures rest { drop result out.new ≡ drop result out.old }
{
    let mut buffer = itoa::Buffer::new();
    let digits = buffer.format(n).as_bytes();
    out[..digits.len()].copy_from_slice(digits);
    digits.len()
}

// Writes n's decimal digits, with no line end: what std writes for {n}, said by the digits' definition.
#[tactic(auto, using(crate::proofs::Text::written))]
pub fn write_decimal<W: Write>(to: &mut W, n: u64) -> io::Result<()>
    ensures { OnOk result ((k : ℕ) × IsDigitCount 10 1 n k × Appends (W.contents to.old) (W.contents to.new) (last_digits 10 k n)) }
{
    write!(to, "{n}")
}

// Writes a space and n's decimal digits: a field of a line that a program prints.
#[tactic(auto, using(crate::proofs::Text::behind_space))]
pub fn write_field<W: Write>(to: &mut W, n: u64) -> io::Result<()>
    ensures { OnOk result ((k : ℕ) × IsDigitCount 10 1 n k × Appends (W.contents to.old) (W.contents to.new) (32 ∷ last_digits 10 k n)) }
{
    to.write_all(b" ")?;
    write_decimal(to, n)
}
