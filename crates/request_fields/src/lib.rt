// The fields of a request: what stands between the spaces of its line. Each function is proved to answer, and to leave, what specs/ says
// of the fields that are left, whether it takes the request or refuses it.
#![tactic(auto)]

ghost use Rattle.std.specs.Prelude.{◌≡◌, ◌==◌, ◌≤◌, ◌++◌, List, ℕ, Option, Some, IfOk, length, min, drop, is_some, unwrap_or};
ghost use Rattle.std.specs.Char.{is_ascii_lowercase};
ghost use Rattle.std.specs.List.{list_any, position};
ghost use Rattle.std.specs.Result.{result_map_both};
ghost use Rattle.request_fields.specs.Written.{number_of, bits_of, figure_of, count_of};
ghost use Rattle.request_fields.specs.Reading.{is_space, fields_of, left_after, or_no_request, ok_if, next_value, next_values, with_value};

use arrayvec::ArrayVec;
use std::marker::Model;
use std::num::f64_from_bits_with_nan;

const SPACE: u8 = b' ';

// The most digits of a whole number.
const MOST_DIGITS: usize = 9;

// The largest count that is taken, so that one past every bound can be asked.
pub const MOST_COUNT: usize = 400;

// A table that is as long as a count.
pub type Table<T> = ArrayVec<T, MOST_COUNT>;

// The line is no request.
#[derive(Clone, Copy)]
pub struct NoRequest;

// What one field writes. Each type has a form of its own: one to nine decimal digits, 16 hexadecimal ones, or a figure's bits.
pub trait Field: Copy + Default {
    ghost reads: { List ℕ → Option Self };

    fn read(field: &[u8]) -> Option<Self>
        ensures { result ≡ reads field.now };
}

// A whole number, of one to nine decimal digits.
impl Field for u32 {
    ghost reads = { number_of };

    fn read(field: &[u8]) -> Option<u32> {
        if field.is_empty() || field.len() > MOST_DIGITS {
            return None;
        }
        // By digits, since `parse` takes a plus sign as well, and four times as long.
        let mut value = 0;
        for b in field {
            let d = char::from(*b).to_digit(10)?;
            value = 10 * value + d;
        }
        Some(value)
    }
}

fn has_lowercase(text: &[u8]) -> bool
    ensures { result ≡ list_any is_ascii_lowercase text.now }
{
    text.iter().any(u8::is_ascii_lowercase)
}

// Bits, as 16 upper-case hexadecimal digits.
impl Field for u64 {
    ghost reads = { bits_of };

    fn read(field: &[u8]) -> Option<u64> {
        // The library takes small letters too.
        if has_lowercase(field) {
            return None;
        }
        let mut bytes = [0; 8];
        hex::decode_to_slice(field, &mut bytes).ok()?;
        Some(u64::from_be_bytes(bytes))
    }
}

// A figure: its bits.
impl Field for f64 {
    ghost reads = { figure_of };

    fn read(field: &[u8]) -> Option<f64> {
        Some(f64_from_bits_with_nan(u64::read(field)?))
    }
}

fn first_space(text: &[u8]) -> Option<usize>
    ensures { result ≡ position is_space text.now }
{
    text.iter().position(|b| *b == SPACE)
}

// What of a line is still to be read; `None` once it is read to its end. Contracts see the list of the fields that are left.
#[derive(Drop)]
pub struct Fields<'a> {
    rest: Option<&'a [u8]>,
}

impl<'a> Model for Fields<'a> {
    ghost use Rattle.std.specs.Prelude.{ℕ, List};
    ghost use Rattle.std.specs.Option.{option_copied};
    ghost use Rattle.request_fields.specs.Reading.{fields_left};

    ghost Value = { List (List ℕ) };

    ghost view = { λ f. fields_left (option_copied f.rest) };
}

impl<'a> Fields<'a> {
    pub fn of(line: &'a [u8]) -> Fields<'a>
        ensures { result ≡ fields_of line.now }
    {
        Fields { rest: Some(line) }
    }

    // The next field's text, up to the next space or the end of the line.
    pub fn next_text(&mut self) -> Result<&'a [u8], NoRequest>
        ensures text { result_map_both (λ t. t.now) (λ e. e) result ≡ or_no_request (next_value Some self.old) }
        ensures left { self.new ≡ drop 1 self.old }
    {
        let rest = self.rest.ok_or(NoRequest)?;
        match first_space(rest) {
            Some(end) => {
                self.rest = Some(&rest[end + 1..]);
                Ok(&rest[..end])
            }
            None => {
                self.rest = None;
                Ok(rest)
            }
        }
    }

    // What the next field writes.
    pub fn read<T: Field>(&mut self) -> Result<T, NoRequest>
        ensures value { result ≡ or_no_request (next_value T.reads self.old) }
        ensures left { self.new ≡ drop 1 self.old }
    {
        let field = self.next_text()?;
        T::read(field).ok_or(NoRequest)
    }

    // The next field, a count.
    pub fn count(&mut self) -> Result<usize, NoRequest>
        ensures value { result ≡ or_no_request (next_value (count_of MOST_COUNT) self.old) }
        ensures most { IfOk result (λ n. n ≤ MOST_COUNT) }
        ensures left { self.new ≡ drop 1 self.old }
    {
        let n = self.read::<u32>()? as usize;
        if n > MOST_COUNT {
            return Err(NoRequest);
        }
        Ok(n)
    }

    // Reads the next field into a table. One more than the table has room for is no request.
    pub fn read_to<T: Field, const N: usize>(
        &mut self,
        table: &mut ArrayVec<T, N>,
    ) -> Result<(), NoRequest>
        ensures ended { let put = with_value N table.old.items (next_value T.reads self.old) in
            result ≡ ok_if (is_some put) tt }
        ensures items { let put = with_value N table.old.items (next_value T.reads self.old) in
            table.new.items ≡ unwrap_or put table.old.items }
        ensures left { self.new ≡ drop 1 self.old }
    {
        let value = self.read()?;
        table.try_push(value).map_err(|_| NoRequest)
    }

    // The next n fields, a table.
    pub fn table<T: Field, const N: usize>(&mut self, n: usize) -> Result<ArrayVec<T, N>, NoRequest>
        ensures items { let xs = next_values T.reads (min n N) self.old in
            result ≡ ok_if (length xs == n) (record { items = xs }) }
        ensures left { let xs = next_values T.reads (min n N) self.old in
            self.new ≡ left_after n (length xs) self.old }
    {
        let mut table = ArrayVec::new();
        for _ in 0..n {
            self.read_to(&mut table)?;
        }
        Ok(table)
    }

    // Fills a table with the next fields. What stands behind those that are read stays.
    pub fn fill<T: Field>(&mut self, table: &mut [T]) -> Result<(), NoRequest>
        ensures ended { let xs = next_values T.reads (length table.old) self.old in
            result ≡ ok_if (length xs == length table.old) tt }
        ensures places { let xs = next_values T.reads (length table.old) self.old in
            table.new ≡ xs ++ drop (length xs) table.old }
        ensures left { let xs = next_values T.reads (length table.old) self.old in
            self.new ≡ left_after (length table.old) (length xs) self.old }
    {
        for x in table {
            *x = self.read()?;
        }
        Ok(())
    }

    // A line is a request only if it is read to its end.
    pub fn end(self) -> Result<(), NoRequest>
        ensures { result ≡ ok_if (length self.entry == 0) tt }
    {
        match self.rest {
            None => Ok(()),
            Some(_) => Err(NoRequest),
        }
    }
}
