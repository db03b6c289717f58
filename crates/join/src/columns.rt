// Filling a joined column: the first's places, the second's, then zeros. The sheet has its rows by level, so that there the first's and
// the second's take turns.
ghost use Rattle.std.specs.Prelude.{◌≡◌, ◌+◌, ◌<◌, length};
ghost use Rattle.loops.specs.Figures.{at};
ghost use Rattle.loops.specs.Loops.{tab};
ghost use Rattle.sheets.specs.Sheet.{row_place};
ghost use Rattle.join_defs.specs.Columns.{count_at, counts, sheet_at, joined_sheet};
ghost use Rattle.join.specs.Joins.{Raises, Rowed, either_at};

use casefile_defs::ROW_FIGURES;
use loops::fill;
use sheets::{row_corridor, row_level, row_place};

// Place i of the first's column and then the second's.
fn either_at<T: Copy>(x: &[T], y: &[T], past: T, i: usize) -> T
    ensures { (d : T) → result ≡ either_at d past x.now y.now i }
{
    if i < x.len() {
        x[i]
    } else if i - x.len() < y.len() {
        y[i - x.len()]
    } else {
        past
    }
}

pub fn append<T: Copy>(out: &mut [T], x: &[T], y: &[T], past: T)
    ensures { (d : T) → out.new ≡ tab (length out.old) (either_at d past x.now y.now) }
{
    fill(out, |i| either_at(x, y, past, i));
}

// Place i where the second's are raised by a number. Of `either_at` with a closure for the second's places, tried, what `fill` asks of its own closure is
// not proved.
fn count_at(x: &[u32], y: &[u32], by: u32, i: usize) -> u32
    requires { Raises by y.now }
    ensures { result ≡ count_at by x.now y.now i }
{
    if i < x.len() {
        x[i]
    } else if i - x.len() < y.len() {
        by + y[i - x.len()]
    } else {
        0
    }
}

pub fn append_raised(out: &mut [u32], x: &[u32], y: &[u32], by: u32)
    requires { Raises by y.now }
    ensures { out.new ≡ counts (length out.old) by x.now y.now }
{
    fill(out, |i| count_at(x, y, by, i));
}

// Figure j of the row of a corridor at a level.
fn row_figure(sheet: &[f64], corridors: usize, k: usize, level: usize, j: usize) -> f64
    requires { row_place corridors k level + j < length sheet.now }
    ensures { result ≡ at sheet.now (row_place corridors k level + j) }
{
    let p = row_place(corridors, k, level);
    sheet[p + j]
}

// The sheets of both: of the first's m corridors and the second's o, at n levels.
#[derive(Clone, Copy)]
pub struct Sheets<'a> {
    pub m: usize,
    pub o: usize,
    pub n: usize,
    pub first: &'a [f64],
    pub second: &'a [f64],
    ghost rowed: { Rowed m o n (length first.now) (length second.now) },
}

impl<'a> Sheets<'a> {
    // Place p of the joined sheet.
    fn at(&self, p: usize) -> f64
        ensures { result ≡ sheet_at self.now.m self.now.o self.now.n self.now.first.now self.now.second.now p }
    {
        let i = p / ROW_FIGURES;
        let m = self.m;
        if i >= (m + self.o) * self.n {
            return 0.0;
        }
        let k = row_corridor(m + self.o, i);
        let level = row_level(m + self.o, i);
        if k < m {
            return row_figure(self.first, m, k, level, p % ROW_FIGURES);
        }
        row_figure(self.second, self.o, k - m, level, p % ROW_FIGURES)
    }
}

pub fn append_sheet(out: &mut [f64], sheets: &Sheets)
    ensures { out.new ≡ joined_sheet (length out.old) sheets.now.m sheets.now.o sheets.now.n sheets.now.first.now sheets.now.second.now }
{
    fill(out, |p| sheets.at(p));
}
