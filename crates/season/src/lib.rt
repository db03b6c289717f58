// A season of plans (document 02, K3): plans are taken one at a time, and figures are read off the season at any time.
#![tactic(auto)]

ghost use Rattle.std.specs.Prelude.{◌≡◌, ◌<◌, ◌≤◌, min, max, length};
ghost use Rattle.season_defs.specs.Terms.{divisor, lowest};
ghost use Rattle.season_defs.specs.Feeding.{most_plans, most_corridors, begun, draft_of, even_with, check_of, updated, with_plan, outcome, feed, within, corridor_figures, season_figures};

use plan_defs::CorridorPlan;
use refusal::Refusal;
use season_defs::{CorridorFigures, MOST_CORRIDORS, MOST_PLANS, Ratio, Season, SeasonFigures};

// ---- fractions
// The greatest common divisor, by Euclid.
#[tactic(auto, using(season_defs::proofs::Euclid::turned, season_defs::proofs::Euclid::ended))]
fn common_divisor(a: u64, b: u64) -> u64
    ensures { result ≡ divisor a b }
{
    let mut x = a;
    let mut y = b;
    // It ends when nothing is left over: no index is counted.
    while y > 0 {
        (x, y) = (y, x % y);
    }
    x
}

// a over b in lowest terms; 0 over 1 where b is 0.
#[tactic(auto, using(season_defs::proofs::Euclid::divisor_pos), unfolding(season_defs::specs::Terms::lowest))]
fn in_lowest_terms(a: u64, b: u64) -> Ratio
    ensures { result ≡ lowest a b }
{
    if b == 0 {
        return Ratio { over: 0, under: 1 };
    }
    let d = common_divisor(a, b);
    Ratio {
        over: a / d,
        under: b / d,
    }
}

// ---- one plan more
// Takes a plan that passes.
#[tactic(auto, using(loops::proofs::Tab::fill_start, loops::proofs::Tab::fill_turn, loops::proofs::Tab::fill_own), unfolding(season_defs::specs::Feeding::with_plan, season_defs::specs::Feeding::updated))]
fn take(season: &mut Season, plan: CorridorPlan, corridors: usize, circuits: &[u32])
    requires { (season.old.taken < most_plans) × (length circuits.now ≤ most_corridors) }
    ensures { season.new ≡ with_plan season.old (draft_of plan corridors circuits.now) }
{
    for (k, count) in circuits.iter().enumerate() {
        season.least[k] = season.least[k].min(*count);
        season.greatest[k] = season.greatest[k].max(*count);
        season.total[k] = season.total[k].wrapping_add(*count as u64);
    }
    season.taken += 1;
    season.corridors = corridors;
    season.rounds = season.rounds.wrapping_add(plan.rounds as u64);
    season.converged = season.converged.wrapping_add(u64::from(plan.converged));
}

// ---- the refusals, in order
fn even_with(season: &Season, corridors: usize) -> bool
    ensures { result ≡ even_with season.now corridors }
{
    season.taken == 0 || corridors == season.corridors
}

#[tactic(auto, unfolding(season_defs::specs::Feeding::tests_of))]
fn check(season: &Season, corridors: usize, places: usize) -> Result<(), Refusal>
    ensures { result ≡ check_of season.now corridors places }
{
    if places != corridors {
        return Err(Refusal::Length);
    }
    if corridors > MOST_CORRIDORS {
        return Err(Refusal::Count);
    }
    if !even_with(season, corridors) {
        return Err(Refusal::Uneven);
    }
    if season.taken >= MOST_PLANS {
        return Err(Refusal::SeasonFull);
    }
    Ok(())
}

// ---- the operations
// A season that has taken no plan.
#[tactic(auto, unfolding(season_defs::specs::Feeding::begun))]
pub fn begin() -> Season
    ensures { result ≡ begun }
{
    Season {
        taken: 0,
        corridors: 0,
        rounds: 0,
        converged: 0,
        least: [u32::MAX; MOST_CORRIDORS],
        greatest: [0; MOST_CORRIDORS],
        total: [0; MOST_CORRIDORS],
    }
}

// Takes a plan: its summary and its circuits, as planning leaves them. A refused plan leaves the season as it was.
#[tactic(auto, using(season_defs::proofs::Checks::passed), unfolding(season_defs::specs::Feeding::feed, season_defs::specs::Feeding::fed_by))]
pub fn add_plan(
    season: &mut Season,
    plan: CorridorPlan,
    corridors: usize,
    circuits: &[u32],
) -> Result<(), Refusal>
    ensures { outcome result season.new ≡ feed season.old (draft_of plan corridors circuits.now) }
{
    check(season, corridors, circuits.len())?;
    take(season, plan, corridors, circuits);
    Ok(())
}

fn is_within(season: &Season, k: usize) -> bool
    ensures { result ≡ within season.now k }
{
    0 < season.taken && k < season.corridors && k < MOST_CORRIDORS
}

// The figures of corridor k; 0, and 0 over 1, with no plan taken or past the corridors.
#[tactic(auto, unfolding(season_defs::specs::Feeding::corridor_figures))]
pub fn corridor_figures(season: &Season, k: usize) -> CorridorFigures
    ensures { result ≡ corridor_figures season.now k }
{
    if !is_within(season, k) {
        return CorridorFigures {
            least: 0,
            greatest: 0,
            mean: Ratio { over: 0, under: 1 },
        };
    }
    CorridorFigures {
        least: season.least[k],
        greatest: season.greatest[k],
        mean: in_lowest_terms(season.total[k], season.taken as u64),
    }
}

// How many plans were taken, their mean rounds and the share that converged.
#[tactic(auto, unfolding(season_defs::specs::Feeding::season_figures))]
pub fn season_figures(season: &Season) -> SeasonFigures
    ensures { result ≡ season_figures season.now }
{
    let plans = season.taken as u64;
    SeasonFigures {
        plans: season.taken,
        rounds: in_lowest_terms(season.rounds, plans),
        converged: in_lowest_terms(season.converged, plans),
    }
}
