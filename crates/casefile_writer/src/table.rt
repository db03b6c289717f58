// The tables of a case file: a record for each of the first so many places.
ghost use Rattle.std.specs.Prelude.{◌≡◌, ◌+◌, ◌*◌, ◌<◌, ◌≤◌, ℕ, length};
ghost use Rattle.casefile_defs.specs.Bounds.{row_figures};
ghost use Rattle.sheets.specs.Sheet.{line_place};
ghost use Rattle.casefile_theorems.specs.Writer.{table_bytes};
ghost use Rattle.casefile_writer.specs.Grown.{Grown};
ghost use Rattle.casefile_writer.specs.Rows.{line_at};
ghost use Rattle.casefile_writer.specs.Words.{weighs};

use crate::bytes::Bytes;
use crate::record::{Line, Record};
use loops::first_fault;
use sheets::line_place;

// Whether some weight is not 1, so that the buses are written as BV. By the search that the definition names, as `all_finite` of planning.
pub fn some_weight(count: usize, weight: &[f64]) -> bool
    requires { count ≤ length weight.now }
    ensures { result ≡ weighs weight.now count }
{
    first_fault(count, |i| weight[i] == 1.0).is_some()
}

impl Bytes<'_> {
    // The record of each place, as a function gives it.
    pub fn put_table<R: Record, F: Fn(usize) -> R>(&mut self, count: usize, record_at: F)
        requires callable { (i : ℕ) → i < count → F.pre record_at i }
        requires fits { self.old.len + count * R.most ≤ length self.old.out.now }
        ensures grown { (f : ℕ → R) → ((i : ℕ) (r : R) → i < count → F.post record_at i r → r ≡ f i) → let t = table_bytes (λ i. R.kind (f i)) count (λ i. R.fields (f i)) in Grown self.old self.new (length t) t }
        ensures room { length self.new.out.now ≡ length self.old.out.now }
        ensures size { self.new.len ≤ self.old.len + count * R.most }
    {
        for i in 0..count {
            record_at(i).put(self);
        }
    }
}

// Line i of the file, which has its lines by corridor; the sheet has its rows by level.
#[tactic(auto, using(sheets::proofs::Layouts::some_row, sheets::proofs::Layouts::line_place_inside))]
pub fn line_at(sheet: &[f64], corridors: usize, levels: usize, i: usize) -> Line
    requires line_in_bounds { i < corridors * levels }
    requires row_figures_in_bounds { corridors * levels * row_figures ≤ length sheet.now }
    ensures { result ≡ line_at sheet.now (line_place corridors levels i) }
{
    let p = line_place(corridors, levels, i);
    Line {
        r: sheet[p],
        x: sheet[p + 1],
        b: sheet[p + 2],
        rate: sheet[p + 3],
        basis: sheet[p + 4],
    }
}
