// Stiffening: each component whose angles are spread too wide, after the second loop of a round of `plan_corridors`.
ghost use Rattle.std.specs.Prelude.{◌≡◌, ℕ, ◌<◌, Bool, true, not, cond, length, Float, Ok};
ghost use Rattle.loops.specs.Figures.{at, minus};
ghost use Rattle.loops.specs.Loops.{first};
ghost use Rattle.plan_defs.specs.Constants.{max_angle_spread_rad};
ghost use Rattle.plan_defs.specs.Components.{within, members};
ghost use Rattle.plan_defs.specs.Stiffen.{best_of};
ghost use Rattle.planning.specs.Stiffen.{Stiffenable, Room, LedStiffened, StiffenFits, StepTaken, reinforce_step, narrow_step, component_step, Led, lead_of, lag_of};
ghost use Rattle.planning.specs.Tables.{grid_in, opened_in, solved_by};

use crate::budgets::{Limits, StiffeningTally};
use crate::candidates::choose_batch;
use crate::edges::Edges;
use crate::solved::Solved;
use crate::stiffen_corridor::stiffen_batch;
use crate::tables::{Grid, Opened};
use loops::MOST_BUSES;
use refusal::Refusal;

// Three quarters of the rounds.
const STIFFENING_ROUNDS: u32 = 48;

// The widest spread of a component's angles, radians.
const MAX_ANGLE_SPREAD_RAD: f64 = 0.775397496610753;

// A component's first bus. A root leads itself, so that there is one; of an Option `best_of` would have to show that again in a branch for none.
fn first_of(leader: &[u32], root: usize) -> usize
    ensures { result ≡ first (λ (i : ℕ). not (within leader.now root i)) (length leader.now) 0 }
{
    loops::first_fault(leader.len(), |i| leader[i] as usize != root).unwrap_or(leader.len())
}

// The best of a component's buses by `better`, the lowest on a tie.
fn best_of<F: Fn(f64, f64) -> bool>(leader: &[u32], angle: &[f64], root: usize, better: F) -> usize
    requires led { Led root leader.now angle.now }
    requires callable { (x y : Float) → F.pre better x y }
    ensures bus { result < length leader.now }
    ensures best { (p : Float → Float → Bool) → ((x y : Float) (r : Bool) → F.post better x y r → r ≡ p x y)
        → result ≡ best_of (λ i best. cond (p (at angle.now best) (at angle.now i)) i best) (members leader.now root) }
{
    let mut best = first_of(leader, root);
    for i in best + 1..leader.len() {
        if (leader[i] as usize == root) & better(angle[best], angle[i]) {
            best = i;
        }
    }
    best
}

impl Solved<'_> {
    // The bus of the component of the most angle, and of the least.
    fn lead(&self, root: usize) -> usize
        requires { Led root self.now.opened.leader self.now.angle }
        ensures bus { result < length self.now.level }
        ensures best { result ≡ lead_of self.now.opened.leader self.now.angle root }
    {
        best_of(self.opened.leader, self.angle, root, |x, y| x < y)
    }

    fn lag(&self, root: usize) -> usize
        requires { Led root self.now.opened.leader self.now.angle }
        ensures bus { result < length self.now.level }
        ensures best { result ≡ lag_of self.now.opened.leader self.now.angle root }
    {
        best_of(self.opened.leader, self.angle, root, |x, y| y < x)
    }

    // By how much these two are too far apart.
    fn excess(&self, lead: usize, lag: usize) -> f64
        requires { (lead < length self.now.level) × (lag < length self.now.level) }
        ensures { result ≡ minus (minus (at self.now.angle lead) (at self.now.angle lag)) max_angle_spread_rad }
    {
        let angle = self.angle;
        angle[lead] - angle[lag] - MAX_ANGLE_SPREAD_RAD
    }
}

// Stiffens the chosen corridors.
fn reinforce(
    root: usize,
    excess: f64,
    solved: &Solved,
    phi: &[f64],
    circuits: &mut [u32],
    banks: &mut [f64],
    floors: &mut [f64],
    upsized: &mut [u32],
    marks: &mut [u32],
    t: StiffeningTally,
) -> StiffeningTally
    requires stiffen_fits { StiffenFits solved.now.grid solved.now.level circuits.old banks.old floors.old upsized.old marks.old }
    requires phi_len { (length phi.now ≡ length solved.now.level) × Room (length solved.now.grid.a) t }
    ensures { StepTaken (reinforce_step root excess solved.now phi.now)
        solved.now.grid solved.now.level
        circuits.old banks.old floors.old upsized.old marks.old t
        circuits.new banks.new floors.new upsized.new marks.new (Ok result) }
{
    let order = choose_batch(root, excess, solved, phi, circuits, banks, t);
    stiffen_batch(solved, &order, circuits, banks, floors, upsized, marks, t)
}

// With the angles of one per unit from the lead to the lag, in `phi`; refusal 9 where one of them is not finite.
// What it writes goes in slices of its own: src/tables.rt.
fn narrow(
    root: usize,
    lead: usize,
    lag: usize,
    excess: f64,
    solved: &Solved,
    phi: &mut [f64],
    circuits: &mut [u32],
    banks: &mut [f64],
    floors: &mut [f64],
    upsized: &mut [u32],
    marks: &mut [u32],
    t: StiffeningTally,
) -> Result<StiffeningTally, Refusal>
    requires stiffen_fits { StiffenFits solved.now.grid solved.now.level circuits.old banks.old floors.old upsized.old marks.old }
    requires phi_len { (length phi.old ≡ length solved.now.level) × (lead < length solved.now.level) × (lag < length solved.now.level) × Room (length solved.now.grid.a) t }
    ensures { StepTaken (narrow_step root lead lag excess solved.now)
        solved.now.grid solved.now.level
        circuits.old banks.old floors.old upsized.old marks.old t
        circuits.new banks.new floors.new upsized.new marks.new result }
{
    solved.e.unit_angles(solved.opened.grounds, lead, lag, phi)?;
    Ok(reinforce(
        root, excess, solved, phi, circuits, banks, floors, upsized, marks, t,
    ))
}

fn widened(t: StiffeningTally) -> StiffeningTally
    ensures { result ≡ record { total = t.total; hv = t.hv; stiffening = t.stiffening; wide = true; stiffened = t.stiffened } }
{
    StiffeningTally { wide: true, ..t }
}

// The component that a bus leads. The last quarter of the rounds belongs to capacity.
fn stiffen_component(
    root: usize,
    round: u32,
    solved: &Solved,
    circuits: &mut [u32],
    banks: &mut [f64],
    floors: &mut [f64],
    upsized: &mut [u32],
    marks: &mut [u32],
    t: StiffeningTally,
) -> Result<StiffeningTally, Refusal>
    requires stiffen_fits { StiffenFits solved.now.grid solved.now.level circuits.old banks.old floors.old upsized.old marks.old }
    requires led { Led root solved.now.opened.leader solved.now.angle × Room (length solved.now.grid.a) t }
    ensures { StepTaken (component_step root round solved.now)
        solved.now.grid solved.now.level
        circuits.old banks.old floors.old upsized.old marks.old t
        circuits.new banks.new floors.new upsized.new marks.new result }
{
    let lead = solved.lead(root);
    let lag = solved.lag(root);
    let excess = solved.excess(lead, lag);
    if excess <= 0.0 {
        return Ok(t);
    }
    let s = widened(t);
    if round > STIFFENING_ROUNDS {
        return Ok(s);
    }
    let mut phi = [0.0; MOST_BUSES];
    narrow(
        root,
        lead,
        lag,
        excess,
        solved,
        &mut phi[0..solved.level.len()],
        circuits,
        banks,
        floors,
        upsized,
        marks,
        s,
    )
}

// The component that bus i leads, where it leads one. What it reads comes apart: the rounds write the levels and the angles too, and
// the check covers no struct made there of references at several lifetimes.
pub fn stiffen_led(
    i: usize,
    round: u32,
    g: Limits,
    grid: &Grid,
    level: &[u32],
    opened: &Opened,
    e: &Edges,
    angle: &[f64],
    circuits: &mut [u32],
    banks: &mut [f64],
    floors: &mut [f64],
    upsized: &mut [u32],
    marks: &mut [u32],
    t: StiffeningTally,
) -> Result<StiffeningTally, Refusal>
    requires stiffenable { Stiffenable (solved_by g (grid_in grid.now) level.now (opened_in opened.now) e.now angle.now) circuits.old banks.old floors.old upsized.old marks.old }
    requires i_in_bounds { (i < length opened.now.leader.now) × Room (length grid.now.a.now) t }
    ensures { LedStiffened i round (solved_by g (grid_in grid.now) level.now (opened_in opened.now) e.now angle.now)
        circuits.old banks.old floors.old upsized.old marks.old t
        circuits.new banks.new floors.new upsized.new marks.new result }
{
    if opened.leader[i] as usize == i {
        let solved = Solved {
            g,
            grid,
            level,
            opened,
            e,
            angle,
        };
        return stiffen_component(
            i, round, &solved, circuits, banks, floors, upsized, marks, t,
        );
    }
    Ok(t)
}
