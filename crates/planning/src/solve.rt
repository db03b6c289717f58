// Every solve of a plan: the angles of the buses and the flows of the corridors at the peak. After `susceptance`,
// `planning_state` and `corridor_flows` of planning.rs; refusal 9.
ghost use Rattle.std.specs.Prelude.{◌≡◌, ◌<◌, length};
ghost use Rattle.angles_defs.specs.Network.{zeros};
ghost use Rattle.angles_defs.specs.Solve.{solve};
ghost use Rattle.plan_defs.specs.Build.{drawn_all};
ghost use Rattle.plan_defs.specs.Solve.{susceptance, edges_for, flows_of, all_finite, planning_on, planning_state};
ghost use Rattle.plan_defs.specs.Stiffen.{unit_at};
ghost use Rattle.planning.specs.Edges.{Grounded};
ghost use Rattle.planning.specs.Opening.{stage_of};
ghost use Rattle.planning.specs.Design.{lines_for};
ghost use Rattle.planning.specs.Solve.{peak_for, solved_of, finite_angles, finite_answer, SolvePlaces, Drawing, Lent};
ghost use Rattle.planning.specs.Tables.{grid_in, opened_in, edges_in};

use crate::design::circuit;
use crate::edges::Edges;
use crate::tables::{Grid, Opened};
use arrayvec::ArrayVec;
use loops::MOST_BUSES;
use plan_defs::CircuitDesign;
use refusal::Refusal;

// The system base, MVA.
pub const BASE_MVA: f64 = 100.0;

// ---- the edges: the corridors' ends and the susceptances of all their circuits
pub fn susceptance(d: CircuitDesign) -> f64
    ensures { result ≡ susceptance d }
{
    d.x_pu / (d.r_pu * d.r_pu + d.x_pu * d.x_pu)
}

pub fn draw_edges(grid: &Grid, level: &[u32], circuits: &[u32], banks: &[f64]) -> Edges
    requires { Drawing (grid_in grid.now) level.now circuits.now banks.now }
    ensures sizes { (result.buses ≡ length level.now) × (length result.from.items ≡ length grid.now.a.now) }
    ensures edges { edges_in result ≡ edges_for (drawn_all (lines_for (grid_in grid.now)) level.now banks.now) circuits.now }
{
    let mut from = ArrayVec::new();
    let mut to = ArrayVec::new();
    let mut weight = ArrayVec::new();
    for k in 0..grid.a.len() {
        let d = circuit(grid, level, k, banks[k]);
        from.push(d.from as u32);
        to.push(d.to as u32);
        weight.push(susceptance(d) * circuits[k] as f64);
    }
    Edges {
        buses: level.len(),
        from,
        to,
        weight,
    }
}

// ---- angles
// Places of the solver's work for each bus.
const SOLVER_ROWS: usize = 8;

const SOLVER_PLACES: usize = SOLVER_ROWS * MOST_BUSES;

impl Edges {
    // The angles from a guess; 9 where one is not finite.
    fn angles(
        &self,
        injection: &[f64],
        grounds: &[u32],
        guess: &[f64],
        angle: &mut [f64],
    ) -> Result<(), Refusal>
        requires grounded { (self.now.buses ≡ length angle.old) × Grounded (length angle.old) grounds.now }
        requires places { SolvePlaces (length angle.old) injection.now guess.now angle.old }
        ensures { stage_of result angle.new
            ≡ finite_angles (solve (length angle.old) (edges_in self.now) grounds.now injection.now guess.now).x }
    {
        let n = angle.len();
        let mut work = [0.0; SOLVER_PLACES];
        angles::dc_angles(
            n,
            self.from.len(),
            grounds.len(),
            &self.from,
            &self.to,
            &self.weight,
            injection,
            grounds,
            guess,
            angle,
            &mut work[0..SOLVER_ROWS * n],
        )
        .map_err(|_| Refusal::NotFinite(0))?;
        Ok(())
    }

    // The angles at which one per unit goes from the lead to the lag, for stiffening.
    pub fn unit_angles(
        &self,
        grounds: &[u32],
        lead: usize,
        lag: usize,
        phi: &mut [f64],
    ) -> Result<(), Refusal>
        requires grounded { (self.now.buses ≡ length phi.old) × Grounded (length phi.old) grounds.now }
        requires lead_in_bounds { (lead < length phi.old) × (lag < length phi.old) }
        ensures { stage_of result phi.new
            ≡ finite_angles (solve (length phi.old) (edges_in self.now) grounds.now
            (unit_at (length phi.old) lead lag) (zeros (length phi.old))).x }
    {
        let n = phi.len();
        let guess = [0.0; MOST_BUSES];
        let mut injection = [0.0; MOST_BUSES];
        injection[lead] = 1.0;
        injection[lag] = -1.0;
        self.angles(&injection[0..n], grounds, &guess[0..n], phi)
    }

    // The flow of each, MW. By index: it is that of the three vectors and of the flows.
    fn flows(&self, angle: &[f64], flow: &mut [f64])
        requires { (self.now.buses ≡ length angle.now) × (length self.now.from.items ≡ length flow.old) }
        ensures { flow.new ≡ flows_of (edges_in self.now) angle.now }
    {
        let from = self.from.as_slice();
        let to = self.to.as_slice();
        let weight = self.weight.as_slice();
        for k in 0..flow.len() {
            let i = from[k] as usize;
            let j = to[k] as usize;
            flow[k] = weight[k] * (angle[i] - angle[j]) * BASE_MVA;
        }
    }
}

// ---- flows
// By the search that the definition names: the clause of `all` speaks of a list's elements, and a law would have to tie the two.
fn all_finite(figures: &[f64]) -> bool
    ensures { result ≡ all_finite figures.now }
{
    loops::first_fault(figures.len(), |i| loops::is_finite(figures[i])).is_none()
}

fn finite_flows(flow: &[f64]) -> Result<(), Refusal>
    ensures { result ≡ finite_answer (all_finite flow.now) }
{
    if all_finite(flow) {
        return Ok(());
    }
    Err(Refusal::NotFinite(0))
}

// ---- planning_state
// The angles and the flows at the peak on these edges, from the angles that `angle` holds; refusal 9 where one of them is not finite.
pub fn peak_state(
    e: &Edges,
    opened: &Opened,
    angle: &mut [f64],
    flow: &mut [f64],
) -> Result<(), Refusal>
    requires sizes { (e.now.buses ≡ length angle.old) × (length e.now.from.items ≡ length flow.old) }
    requires lent { Lent (length angle.old) (length flow.old) (opened_in opened.now) angle.old flow.old }
    ensures { solved_of result (edges_in e.now) angle.new flow.new
        ≡ planning_on (peak_for (length angle.old) opened.now.grounds.now opened.now.injection.now) (edges_in e.now) angle.old }
{
    let mut room = [0.0; MOST_BUSES];
    let guess = &mut room[0..angle.len()];
    guess.copy_from_slice(angle);
    e.angles(opened.injection, opened.grounds, guess, angle)?;
    e.flows(angle, flow);
    finite_flows(flow)
}

// The same on the edges of the corridors as they are.
pub fn planning_state(
    grid: &Grid,
    level: &[u32],
    circuits: &[u32],
    banks: &[f64],
    opened: &Opened,
    angle: &mut [f64],
    flow: &mut [f64],
) -> Result<(), Refusal>
    requires drawing { Drawing (grid_in grid.now) level.now circuits.now banks.now }
    requires lent { Lent (length level.now) (length grid.now.a.now) (opened_in opened.now) angle.old flow.old }
    ensures { solved_of result
        (edges_for (drawn_all (lines_for (grid_in grid.now))
        level.now banks.now) circuits.now)
        angle.new flow.new
        ≡ planning_state (peak_for (length level.now) opened.now.grounds.now opened.now.injection.now)
        (drawn_all (lines_for (grid_in grid.now))
        level.now banks.now) circuits.now angle.old }
{
    let e = draw_edges(grid, level, circuits, banks);
    peak_state(&e, opened, angle, flow)
}
