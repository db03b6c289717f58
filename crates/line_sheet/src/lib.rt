// The line office's sheet (document 02, K8), worked out from kV, length and spread after `line_parameters` of branches.rs.
#![tactic(auto)]

ghost use Rattle.std.specs.Prelude.{◌≡◌};
ghost use Rattle.line_defs.specs.Rows.{corridor_rows};
ghost use Rattle.line_defs.specs.Sheet.{outcome, line_sheet, WhereAnswered};

use crate::rows::sheets_ok;
use crate::tables::{Tables, levels_of};
use refusal::Refusal;
use sheets::ROW_FIGURES;

mod check;
mod grid;
mod limbs;
mod loadability;
mod row;
mod rows;
mod sheet;
mod spread;
mod tables;
mod whole;
mod wide;

// Writes a row for each corridor and level: r, x, b, rate, basis (0 thermal, 1 loadability), all levels of corridor 0 first. Reads
// the levels' kV, and each corridor's length in km and impedance spread.
#[tactic(auto, using(crate::proofs::Checks::passed, crate::proofs::Operation::is_refused_lem, crate::proofs::Operation::is_worked, crate::proofs::Operation::within))]
pub fn line_sheet(
    levels: usize,
    corridors: usize,
    ladder: &[f64],
    km: &[f64],
    spread: &[f64],
    sheet: &mut [f64],
) -> Result<(), Refusal>
    ensures sheet_after { outcome result sheet.new ≡ line_sheet levels corridors ladder.now km.now spread.now sheet.old }
    ensures bounds { WhereAnswered result corridors km.now spread.now }
{
    check::check(levels, corridors, ladder, km, spread, sheet.len())?;
    let tables = Tables {
        levels,
        corridors,
        ladder,
        each: levels_of(ladder),
        km,
        spread,
    };
    sheet::fill(&tables, sheet);
    Ok(())
}

// The rows of corridor k, all its levels: a part of the surveyed sheet where that has them, which holds the rows of the first
// `count` corridors; else a part of the worked-out sheet. An empty part where there is no such corridor or a sheet has not its length.
pub fn corridor_rows<'a>(
    levels: usize,
    corridors: usize,
    count: usize,
    k: usize,
    surveyed: &'a [f64],
    worked: &'a [f64],
) -> &'a [f64]
    ensures { result.now ≡ corridor_rows levels corridors count k surveyed.now worked.now }
{
    if !sheets_ok(levels, corridors, count, surveyed.len(), worked.len()) {
        return &worked[..0];
    }
    if k >= corridors {
        return &worked[..0];
    }
    let n = ROW_FIGURES * levels;
    let from = k * n;
    let to = from + n;
    if k < count {
        return &surveyed[from..to];
    }
    &worked[from..to]
}
