// The design of one circuit of a corridor, after `design_circuits` and `set_transformer_mva` of branches.rs. It is drawn by value
// from the corridor's row of the line sheet and its bank, and never stored.
ghost use Rattle.std.specs.Prelude.{◌≡◌, ℕ, ◌+◌, ◌<◌, ◌≤◌, true, length, slice_index, Float};
ghost use Rattle.loops.specs.Figures.{at};
ghost use Rattle.loops.specs.Loops.{tab};
ghost use Rattle.impedance.specs.Impedance.{rating_ok};
ghost use Rattle.sheets.specs.Sheet.{row_figures};
ghost use Rattle.plan_defs.specs.Case.{row_of, row_from};
ghost use Rattle.plan_defs.specs.Design.{basis_of, line_of, bank_basis, with_bank, set_transformer_mva, differ, drawn, design};
ghost use Rattle.plan_defs.specs.declared.CircuitDesign.{CircuitDesign};
ghost use Rattle.planning.specs.Design.{lines_for, ends_for, Lines, EndsFit, LineFits, ends_of, line_between};
ghost use Rattle.planning.specs.Fill.{designs_for, Drawable};
ghost use Rattle.planning.specs.Tables.{grid_in};

use crate::tables::Grid;
use impedance::SeriesImpedance;
use loops::{lesser, magnitude};
use plan_defs::{CircuitDesign, RatingBasis};
use sheets::row_place;

// Two kV that differ by no more are one level.
const KV_TOLERANCE: f64 = 1e-6;

// ---- the line alone
fn basis_of(code: f64) -> RatingBasis
    ensures { result ≡ basis_of code }
{
    if code == 1.0 {
        RatingBasis::Loadability
    } else {
        RatingBasis::Thermal
    }
}

fn line(
    from: usize,
    to: usize,
    kv: f64,
    r_pu: f64,
    x_pu: f64,
    b_pu: f64,
    line_rate: f64,
    code: f64,
    length_km: f64,
    rate_spread: f64,
) -> CircuitDesign
    ensures { result ≡ line_of from to kv (row_of r_pu x_pu b_pu line_rate code) length_km rate_spread }
{
    let basis = basis_of(code);
    CircuitDesign {
        from,
        to,
        kv,
        r_pu,
        x_pu,
        b_pu,
        rate_a: line_rate * rate_spread,
        is_transformer: false,
        transformer_mva: 0.0,
        length_km,
        rating_basis: basis,
        line_r_pu: r_pu,
        line_x_pu: x_pu,
        line_rate,
        line_basis: basis,
        rate_spread,
    }
}

// ---- the bank
fn bank_basis(mva: f64, line_rate: f64, line_basis: RatingBasis) -> RatingBasis
    ensures { result ≡ bank_basis mva line_rate line_basis }
{
    if mva < line_rate {
        return RatingBasis::Transformer;
    }
    line_basis
}

// The circuit with a bank of this impedance: its rating is the lesser of the bank's and the line's.
fn with_bank(d: CircuitDesign, mva: f64, z: SeriesImpedance) -> CircuitDesign
    ensures { result ≡ with_bank d mva z }
{
    let rate = lesser(d.line_rate, mva);
    let basis = bank_basis(mva, d.line_rate, d.line_basis);
    CircuitDesign {
        r_pu: d.line_r_pu + z.r,
        x_pu: d.line_x_pu + z.x,
        rate_a: rate * d.rate_spread,
        is_transformer: true,
        transformer_mva: mva,
        rating_basis: basis,
        ..d
    }
}

// The bank's impedance follows its size class. A rating above 0 and finite is never refused.
pub fn set_transformer_mva(d: CircuitDesign, mva: f64) -> CircuitDesign
    requires { rating_ok mva ≡ true }
    ensures { result ≡ set_transformer_mva d mva }
{
    let answer = impedance::transformer_impedance(mva);
    let Ok(z) = answer else {
        return d;
    };
    with_bank(d, mva, z)
}

// ---- a corridor's ends at the buses' levels
#[derive(Clone, Copy)]
pub struct Ends {
    // The one with the higher kV, a on a tie, and the other one.
    pub from: usize,
    pub to: usize,
    // They differ in voltage, so that a bank stands between them.
    pub steps_down: bool,
}

fn kv_at(ladder: &[f64], level: &[u32], i: usize) -> f64
    requires { (i < length level.now) × (slice_index level.now i < length ladder.now) }
    ensures { result ≡ at ladder.now (slice_index level.now i) }
{
    let l = level[i] as usize;
    ladder[l]
}

fn differ(kv_a: f64, kv_b: f64) -> bool
    ensures { result ≡ differ kv_a kv_b }
{
    magnitude(kv_a - kv_b) > KV_TOLERANCE
}

pub fn ends_of(grid: &Grid, level: &[u32], k: usize) -> Ends
    requires { EndsFit (grid_in grid.now) level.now k }
    ensures { result ≡ ends_of (ends_for (grid_in grid.now)) level.now k }
{
    let i = grid.a[k] as usize;
    let j = grid.b[k] as usize;
    let kv_a = kv_at(grid.ladder, level, i);
    let kv_b = kv_at(grid.ladder, level, j);
    let (from, to) = if kv_b <= kv_a { (i, j) } else { (j, i) };
    let steps_down = differ(kv_a, kv_b);
    Ends {
        from,
        to,
        steps_down,
    }
}

// ---- the design of corridor k, from its line and its bank
// From the row of the sheet that begins there.
fn line_from(
    from: usize,
    to: usize,
    kv: f64,
    sheet: &[f64],
    row: usize,
    length_km: f64,
    rate_spread: f64,
) -> CircuitDesign
    requires { row + row_figures ≤ length sheet.now }
    ensures { result ≡ line_of from to kv (row_from sheet.now row) length_km rate_spread }
{
    line(
        from,
        to,
        kv,
        sheet[row],
        sheet[row + 1],
        sheet[row + 2],
        sheet[row + 3],
        sheet[row + 4],
        length_km,
        rate_spread,
    )
}

fn line_at(grid: &Grid, level: &[u32], k: usize, from: usize, to: usize) -> CircuitDesign
    requires { LineFits (grid_in grid.now) level.now k from }
    ensures { result ≡ line_between (grid_in grid.now) level.now k from to }
{
    let top = level[from] as usize;
    // as many corridors as lengths
    let row = row_place(grid.km.len(), k, top);
    line_from(
        from,
        to,
        grid.ladder[top],
        grid.sheet,
        row,
        grid.km[k],
        grid.share[k],
    )
}

pub fn circuit(grid: &Grid, level: &[u32], k: usize, mva: f64) -> CircuitDesign
    requires lines { Lines (grid_in grid.now) level.now }
    requires k_in_bounds { (k < length grid.now.a.now) × (rating_ok mva ≡ true) }
    ensures { result ≡ drawn (lines_for (grid_in grid.now)) level.now k mva }
{
    let e = ends_of(grid, level, k);
    let d = line_at(grid, level, k, e.from, e.to);
    if e.steps_down {
        return set_transformer_mva(d, mva);
    }
    d
}

// What `figure` gives of each corridor's design and its index.
pub fn fill_drawn<F: Fn(CircuitDesign, usize) -> f64>(
    grid: &Grid,
    level: &[u32],
    banks: &[f64],
    out: &mut [f64],
    figure: F,
)
    requires lines { Lines (grid_in grid.now) level.now }
    requires drawable { Drawable grid.now.a.now banks.now }
    requires room { length out.old ≡ length grid.now.a.now }
    requires callable { (d : CircuitDesign) (k : ℕ) → k < length grid.now.a.now → F.pre figure d k }
    ensures { (f : CircuitDesign → ℕ → Float) → ((d : CircuitDesign) (k : ℕ) (r : Float) → k < length grid.now.a.now → F.post figure d k r → r ≡ f d k)
        → out.new ≡ tab (length grid.now.a.now) (λ k. f (design (designs_for (grid_in grid.now) level.now banks.now) k) k) }
{
    loops::fill(out, |k| figure(circuit(grid, level, k, banks[k]), k));
}
