// Which corridors of a component are stiffened: those whose reinforcement narrows its spread, the most first.
ghost use Rattle.std.specs.Prelude.{◌≡◌, ℕ, ◌<◌, ◌≤◌, [], map, length, take, All, position, slice_index};
ghost use Rattle.arrayvec.specs.ArrayVec.{array_vec_len};
ghost use Rattle.loops.specs.Figures.{nought};
ghost use Rattle.loops.specs.Loops.{tab};
ghost use Rattle.plan_defs.specs.Constants.{most_corridors};
ghost use Rattle.plan_defs.specs.Components.{within};
ghost use Rattle.plan_defs.specs.Lists.{counting};
ghost use Rattle.plan_defs.specs.Stiffen.{gain_of, batch, batch_cap};
ghost use Rattle.planning.specs.RaiseMarks.{pairs_for};
ghost use Rattle.planning.specs.Stiffen.{Gainful, candidate_at, gain_at, gains_more, gain_next, gain_order, gain_for, Chosen};

use crate::budgets::StiffeningTally;
use crate::figures::counting;
use crate::solve::susceptance;
use crate::solved::Solved;
use arrayvec::ArrayVec;
use loops::MOST_CORRIDORS;
use plan_defs::CircuitDesign;
use std::num::saturating_f64_to_usize;

// The share of a component's corridors in one batch.
const STIFFENING_BATCH_SHARE: f64 = 0.05;

// Of the component, with room for a circuit, or below the top with room for a raise.
fn is_candidate(
    solved: &Solved,
    circuits: &[u32],
    t: StiffeningTally,
    root: usize,
    k: usize,
) -> bool
    requires { (k < length solved.now.grid.a) × (length circuits.now ≡ length solved.now.grid.a) }
    ensures { result ≡ candidate_at solved.now.g solved.now.opened.leader solved.now.level solved.now.grid.a solved.now.grid.b solved.now.grid.cap circuits.now t root k }
{
    let leader = solved.opened.leader;
    let i = solved.grid.a[k] as usize;
    let j = solved.grid.b[k] as usize;
    let tier = solved.level[i].min(solved.level[j]);
    let room = solved.has_room(k, circuits[k], t.total);
    let raise = (solved.g.top < tier) & ((t.hv as usize) < solved.g.hv);
    (leader[i] as usize == root) & (room | raise)
}

// By how much one more circuit narrows the spread, to first order.
fn gain_of(d: CircuitDesign, angle: &[f64], phi: &[f64]) -> f64
    requires { (d.from < length angle.now) × (d.to < length angle.now) × (length phi.now ≡ length angle.now) }
    ensures { result ≡ gain_of angle.now phi.now d }
{
    let i = d.from;
    let j = d.to;
    susceptance(d) * (angle[i] - angle[j]) * (phi[i] - phi[j])
}

fn gain_at(
    solved: &Solved,
    phi: &[f64],
    circuits: &[u32],
    banks: &[f64],
    t: StiffeningTally,
    root: usize,
    k: usize,
) -> f64
    requires { Gainful solved.now phi.now circuits.now banks.now × (k < length solved.now.grid.a) }
    ensures { result ≡ gain_at solved.now
        phi.now circuits.now banks.now t root k }
{
    if !is_candidate(solved, circuits, t, root, k) {
        return 0.0;
    }
    let d = solved.circuit(k, banks[k]);
    gain_of(d, solved.angle, phi)
}

// Of each corridor.
fn gains(
    solved: &Solved,
    phi: &[f64],
    circuits: &[u32],
    banks: &[f64],
    t: StiffeningTally,
    root: usize,
    gain: &mut [f64],
)
    requires gainful { Gainful solved.now phi.now circuits.now banks.now }
    requires size { length gain.old ≡ length solved.now.grid.a }
    ensures { gain.new ≡ tab (length solved.now.grid.a) (gain_at solved.now
        phi.now circuits.now banks.now t root) }
{
    loops::fill(gain, |k| gain_at(solved, phi, circuits, banks, t, root, k));
}

// The place of corridor k in an order, where it comes before another: gains fall, and equal gains stay by index.
fn place_of(gain: &[f64], order: &[u32], k: usize) -> Option<usize>
    requires { (k < length gain.now) × All (λ (j : ℕ). j < length gain.now) order.now }
    ensures { result ≡ position (gains_more gain.now k) order.now }
{
    order.iter().position(|j| gain[*j as usize] < gain[k])
}

// Puts corridor k, which comes after those of the order, in its place, where it gains.
#[tactic(auto, using(crate::proofs::Gains::next_gains))]
fn insert_gain(gain: &[f64], order: &mut ArrayVec<u32, MOST_CORRIDORS>, k: usize)
    requires { (k < length gain.now) × (length gain.now ≤ most_corridors) × (array_vec_len order.old ≤ k) × All (λ (j : ℕ). j < k) order.old.items }
    ensures { order.new.items ≡ gain_next gain.now k order.old.items }
{
    if gain[k] > 0.0 {
        let place = place_of(gain, order, k).unwrap_or(order.len());
        order.insert(place, k as u32);
    }
}

// The corridors with a gain above 0, the most first.
#[tactic(auto, using(crate::proofs::Gains::order_start, crate::proofs::Gains::order_next, crate::proofs::Gains::order_named))]
fn order_gains(gain: &[f64]) -> ArrayVec<u32, MOST_CORRIDORS>
    requires { length gain.now ≤ most_corridors }
    ensures { result.items ≡ gain_order gain.now (length gain.now) }
{
    let mut order = ArrayVec::new();
    for k in 0..gain.len() {
        insert_gain(gain, &mut order, k);
    }
    order
}

// How many of an order are taken: `most` of them, while the gains before are below the excess.
#[tactic(auto, using(crate::proofs::Gains::take_start, crate::proofs::Gains::take_turn, crate::proofs::Gains::take_most, crate::proofs::Gains::take_covered, crate::proofs::Gains::take_all_of))]
fn batch_size(gain: &[f64], order: &[u32], most: usize, excess: f64) -> usize
    requires { All (λ (k : ℕ). k < length gain.now) order.now }
    ensures { take result order.now ≡ batch most nought excess (map (gain_for gain.now) order.now) }
{
    let mut covered = 0.0;
    for (j, k) in order.iter().enumerate() {
        if j >= most || !(covered < excess) {
            return j;
        }
        covered += gain[*k as usize];
    }
    order.len()
}

fn corridors_in(leader: &[u32], a: &[u32], root: usize) -> u32
    requires { (length a.now ≤ most_corridors) × ((k : ℕ) → k < length a.now → slice_index a.now k < length leader.now) }
    ensures { result ≡ counting (λ (k : ℕ). within leader.now root (slice_index a.now k)) (length a.now) }
{
    counting(a.len(), |k| leader[a[k] as usize] as usize == root)
}

// The most corridors in one batch: their share, and at least one.
fn batch_cap(leader: &[u32], a: &[u32], root: usize) -> usize
    requires { (length a.now ≤ most_corridors) × ((k : ℕ) → k < length a.now → slice_index a.now k < length leader.now) }
    ensures { result ≡ batch_cap (pairs_for a.now []) leader.now root }
{
    let part = STIFFENING_BATCH_SHARE * corridors_in(leader, a, root) as f64;
    saturating_f64_to_usize(part.ceil()).max(1)
}

// The corridors that narrow a component's spread the most, as many as cover the excess.
#[tactic(auto, using(crate::proofs::Gains::order_named))]
pub fn choose_batch(
    root: usize,
    excess: f64,
    solved: &Solved,
    phi: &[f64],
    circuits: &[u32],
    banks: &[f64],
    t: StiffeningTally,
) -> ArrayVec<u32, MOST_CORRIDORS>
    requires gainful { Gainful solved.now phi.now circuits.now banks.now }
    ensures { Chosen root excess solved.now
        phi.now circuits.now banks.now t result.items }
{
    let m = solved.grid.a.len();
    let mut room = [0.0; MOST_CORRIDORS];
    let gain = &mut room[..m];
    gains(solved, phi, circuits, banks, t, root, gain);
    let mut order = order_gains(gain);
    let most = batch_cap(solved.opened.leader, solved.grid.a, root);
    let taken = batch_size(gain, &order, most, excess);
    order.truncate(taken);
    order
}
