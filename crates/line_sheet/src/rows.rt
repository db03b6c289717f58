// What lengths two sheets have.
ghost use Rattle.std.specs.Prelude.{◌≡◌};
ghost use Rattle.line_defs.specs.Rows.{sheets_ok};

use sheets::{ROW_FIGURES, counts_ok};

pub fn sheets_ok(levels: usize, corridors: usize, surveyed: usize, n: usize, m: usize) -> bool
    ensures { result ≡ sheets_ok levels corridors surveyed n m }
{
    // Within these bounds the products fit.
    if !counts_ok(corridors, levels) {
        return false;
    }
    if surveyed > corridors {
        return false;
    }
    (n == ROW_FIGURES * (surveyed * levels)) & (m == ROW_FIGURES * (corridors * levels))
}
