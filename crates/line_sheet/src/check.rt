// K8's refusals 1, 2, 3, 6 and 22, in order. They touch nothing.
ghost use Rattle.std.specs.Prelude.{◌≡◌, ◌<◌, length};
ghost use Rattle.loops.specs.Figures.{at, inside};
ghost use Rattle.loops.specs.Loops.{fault};
ghost use Rattle.line_defs.specs.Request.{lengths_ok, level_ok, check_of};

use refusal::Refusal;
use sheets::{counts_ok, sheet_ok};

const MOST_KV: f64 = 10000.0;

// How far a level lies above the next, at least.
const KV_TOLERANCE: f64 = 1e-6;

const MOST_KM: f64 = 10000.0;

const LEAST_SPREAD: f64 = 0.25;

const MOST_SPREAD: f64 = 4.0;

// ---- 1
fn lengths_ok(
    levels: usize,
    corridors: usize,
    ladder: usize,
    km: usize,
    spread: usize,
    sheet: usize,
) -> bool
    ensures { result ≡ lengths_ok levels corridors ladder km spread sheet }
{
    (ladder == levels)
        & (km == corridors)
        & (spread == corridors)
        & sheet_ok(sheet, corridors, levels)
}

// ---- 3, 6 and 22: the first place of a table that is not sound
fn level_ok(ladder: &[f64], i: usize) -> bool
    requires { i < length ladder.now }
    ensures { result ≡ level_ok ladder.now i }
{
    let kv = ladder[i];
    let inside = (0.0 < kv) & (kv <= MOST_KV);
    if i + 1 >= ladder.len() {
        return inside;
    }
    inside & (ladder[i + 1] + KV_TOLERANCE < kv)
}

fn faulty_level(ladder: &[f64]) -> Option<usize>
    ensures { result ≡ fault (level_ok ladder.now) (length ladder.now) }
{
    loops::first_fault(ladder.len(), |i| level_ok(ladder, i))
}

// The first figure that does not lie from `least` to `most`.
fn outside(figures: &[f64], least: f64, most: f64) -> Option<usize>
    ensures { result ≡ fault (λ i. inside least most (at figures.now i)) (length figures.now) }
{
    loops::first_fault(
        figures.len(),
        |i| (least <= figures[i]) & (figures[i] <= most),
    )
}

// The first refusal in order.
#[tactic(auto, using(loops::proofs::Scan::fault_some, loops::proofs::Scan::fault_passed), unfolding(line_defs::specs::Request::tests_of))]
pub fn check(
    levels: usize,
    corridors: usize,
    ladder: &[f64],
    km: &[f64],
    spread: &[f64],
    sheet: usize,
) -> Result<(), Refusal>
    ensures { result ≡ check_of levels corridors ladder.now km.now spread.now sheet }
{
    if !lengths_ok(
        levels,
        corridors,
        ladder.len(),
        km.len(),
        spread.len(),
        sheet,
    ) {
        return Err(Refusal::Length);
    }
    if !counts_ok(corridors, levels) {
        return Err(Refusal::Count);
    }
    if let Some(i) = faulty_level(ladder) {
        return Err(Refusal::Level(i));
    }
    if let Some(k) = outside(km, 0.0, MOST_KM) {
        return Err(Refusal::Corridor(k));
    }
    if let Some(k) = outside(spread, LEAST_SPREAD, MOST_SPREAD) {
        return Err(Refusal::Spread(k));
    }
    Ok(())
}
