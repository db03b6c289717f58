// Where a row of the line sheet stands, and a sheet by corridor laid out by level (document 02, K11). Nobody else has the formula.
#![tactic(auto)]

ghost use Rattle.std.specs.Prelude.{◌≡◌, ◌*◌, ◌^◌, ◌<◌, eqb, length};
ghost use Rattle.loops.specs.Figures.{at};
ghost use Rattle.sheets.specs.Request.{counts_ok, check_of, Sized, outcome, lay_out};
ghost use Rattle.sheets.specs.Sheet.{row_figures, row_place, row_corridor, row_level, line_of, line_place, figure_of, by_level};

use loops::{MOST_CORRIDORS, MOST_LEVELS};
use refusal::Refusal;

// Figures of a row: r, x, b, rate, basis.
pub const ROW_FIGURES: usize = 5;

// The first figure of the row of a corridor and a level, in a sheet by level.
pub fn row_place(corridors: usize, k: usize, level: usize) -> usize
    requires { row_place corridors k level < 2 ^ 64 }
    ensures { result ≡ row_place corridors k level }
{
    ROW_FIGURES * (level * corridors + k)
}

// And back: the corridor of row i of a sheet by level, and its level. That there is a corridor, or a level, is asked here and of the three below, of the numbers of one call: a
// public function may ask for no struct in their place.
pub fn row_corridor(corridors: usize, i: usize) -> usize
    requires { 0 < corridors }
    ensures { result ≡ row_corridor corridors i }
{
    i % corridors
}

pub fn row_level(corridors: usize, i: usize) -> usize
    requires { 0 < corridors }
    ensures { result ≡ row_level corridors i }
{
    i / corridors
}

// The row by corridor that is row i by level.
pub fn line_of(corridors: usize, levels: usize, i: usize) -> usize
    requires { (0 < corridors) × (line_of corridors levels i < 2 ^ 64) }
    ensures { result ≡ line_of corridors levels i }
{
    row_corridor(corridors, i) * levels + row_level(corridors, i)
}

// The first figure, in a sheet by level, of row i by corridor, which is line i of a case file and 7's index i.
pub fn line_place(corridors: usize, levels: usize, i: usize) -> usize
    requires { (0 < levels) × (line_place corridors levels i < 2 ^ 64) }
    ensures { result ≡ line_place corridors levels i }
{
    row_place(corridors, i / levels, i % levels)
}

// So many figures are the rows of so many corridors and levels. The counts are as given, so that their product may not fit.
pub fn sheet_ok(figures: usize, corridors: usize, levels: usize) -> bool
    ensures { result ≡ eqb figures (row_figures * (corridors * levels)) }
{
    match corridors.checked_mul(levels) {
        Some(rows) => rows.checked_mul(ROW_FIGURES) == Some(figures),
        None => false,
    }
}

// Some level and not too many, and not too many corridors.
pub fn counts_ok(corridors: usize, levels: usize) -> bool
    ensures { result ≡ counts_ok corridors levels }
{
    1 <= levels && levels <= MOST_LEVELS && corridors <= MOST_CORRIDORS
}

#[tactic(auto, unfolding(crate::specs::Request::tests_of))]
fn check(corridors: usize, levels: usize, from: usize, to: usize) -> Result<(), Refusal>
    ensures { result ≡ check_of corridors levels from to }
{
    if !sheet_ok(from, corridors, levels) || !sheet_ok(to, corridors, levels) {
        return Err(Refusal::Length);
    }
    if !counts_ok(corridors, levels) {
        return Err(Refusal::Count);
    }
    Ok(())
}

#[tactic(auto, using(crate::proofs::Operation::line_there))]
fn figure_at(corridors: usize, levels: usize, rows: &[f64], p: usize) -> f64
    requires { (p < length rows.now) × (length rows.now ≡ row_figures * (corridors * levels)) }
    ensures { result ≡ at rows.now (figure_of corridors levels p) }
{
    let row = line_of(corridors, levels, p / ROW_FIGURES);
    rows[ROW_FIGURES * row + p % ROW_FIGURES]
}

#[tactic(auto, unfolding(crate::specs::Sheet::by_level))]
fn fill(corridors: usize, levels: usize, rows: &[f64], sheet: &mut [f64])
    requires { Sized corridors levels (length rows.now) (length sheet.old) }
    ensures { sheet.new ≡ by_level corridors levels rows.now }
{
    loops::fill(sheet, |p| figure_at(corridors, levels, rows, p));
}

// Writes the rows of a sheet by corridor, as the line office has it, to a sheet by level, as the planner has it.
#[tactic(auto, using(crate::proofs::Operation::is_refused_lem, crate::proofs::Operation::passed, crate::proofs::Operation::is_laid))]
pub fn lay_out(
    corridors: usize,
    levels: usize,
    rows: &[f64],
    sheet: &mut [f64],
) -> Result<(), Refusal>
    ensures { outcome result sheet.new ≡ lay_out corridors levels rows.now sheet.old }
{
    check(corridors, levels, rows.len(), sheet.len())?;
    fill(corridors, levels, rows, sheet);
    Ok(())
}
