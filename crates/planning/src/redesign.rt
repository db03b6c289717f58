// Every corridor designed anew at the buses' levels, after `design_circuits` of branches.rs and `redesign` of planning.rs. Each
// design is whole, its basis with it; of each its bank is kept.
ghost use Rattle.std.specs.Prelude.{◌≡◌, ◌<◌, replicate};
ghost use Rattle.loops.specs.Figures.{at};
ghost use Rattle.loops.specs.Loops.{tab};
ghost use Rattle.plan_defs.specs.Constants.{most_buses};
ghost use Rattle.plan_defs.specs.Design.{transformer_corridors, fresh_bank, kept_bank};
ghost use Rattle.plan_defs.specs.Build.{bank_of, banks_anew};
ghost use Rattle.planning.specs.Design.{lines_for, ends_for, Banks, RatedDesign};
ghost use Rattle.planning.specs.Redesign.{redesign_for, Corridors, AnewFits, RedesignFits, anew_from, fresh_at};
ghost use Rattle.planning.specs.Tables.{grid_in, supply_in};

use crate::design::{circuit, ends_of, set_transformer_mva};
use crate::opening::inject;
use crate::tables::{Grid, Supply};
use loops::{MOST_BUSES, greater, lesser};
use plan_defs::CircuitDesign;

// The room that a bank is given, and the least bank, MVA.
const TRANSFORMER_HEADROOM: f64 = 1.2;

const TRANSFORMER_MIN_MVA: f64 = 100.0;

// How many corridors step down to each bus.
fn transformer_corridors(grid: &Grid, level: &[u32], shared: &mut [u32; MOST_BUSES])
    requires corridors { Corridors (grid_in grid.now) level.now }
    requires shared_value { shared.old ≡ replicate most_buses 0 }
    ensures { shared.new ≡ tab most_buses (transformer_corridors (ends_for (grid_in grid.now)) level.now) }
{
    for k in 0..grid.a.len() {
        let e = ends_of(grid, level, k);
        let lo = e.to;
        shared[lo] = shared[lo] + u32::from(e.steps_down);
    }
}

// A bank for a bus's load or its units, whichever is more, with headroom, shared over the corridors that step down to it.
fn fresh_bank(load: f64, generation: f64, shared: u32) -> f64
    ensures { result ≡ fresh_bank load generation shared }
{
    let served = greater(load, generation) * TRANSFORMER_HEADROOM / shared.max(1) as f64;
    greater(served, TRANSFORMER_MIN_MVA)
}

// The design with a bank at least as large as the plan made it, up to its line.
fn kept_bank(d: CircuitDesign, floor: f64) -> CircuitDesign
    requires { RatedDesign d }
    ensures { result ≡ kept_bank d floor }
{
    let keep = lesser(floor, d.line_rate);
    if d.is_transformer & (d.transformer_mva < keep) {
        return set_transformer_mva(d, keep);
    }
    d
}

// Corridor k with a fresh bank, or with the one that the plan made larger.
fn circuit_anew(
    grid: &Grid,
    level: &[u32],
    supply: &Supply,
    gen_at: &[f64; MOST_BUSES],
    shared: &[u32; MOST_BUSES],
    floors: &[f64],
    k: usize,
) -> CircuitDesign
    requires { AnewFits (grid_in grid.now) level.now supply.now.load.now gen_at.now shared.now floors.now k }
    ensures { result ≡ anew_from (lines_for (grid_in grid.now)) level.now
        (fresh_at (ends_for (grid_in grid.now)) level.now supply.now.load.now gen_at.now shared.now k)
        (at floors.now k) k }
{
    let e = ends_of(grid, level, k);
    let lo = e.to;
    let mva = fresh_bank(supply.load[lo], gen_at[lo], shared[lo]);
    let fresh = circuit(grid, level, k, mva);
    kept_bank(fresh, floors[k])
}

// The bank that is kept of a design. The lent work has one f64 for each corridor, and `circuit` asks a sound rating of every one:
// where a design has no bank its line's rate stands there, which no design reads. An Option would be taken apart again at its one call.
fn bank_of(d: CircuitDesign) -> f64
    ensures { result ≡ bank_of d }
{
    if d.is_transformer {
        d.transformer_mva
    } else {
        d.line_rate
    }
}

pub fn redesign(grid: &Grid, level: &[u32], supply: &Supply, floors: &[f64], banks: &mut [f64])
    requires { RedesignFits (grid_in grid.now) level.now (supply_in supply.now) floors.now banks.old }
    ensures anew { banks.new ≡ banks_anew (redesign_for (grid_in grid.now) (supply_in supply.now)) level.now floors.now }
    ensures sound { Banks banks.new }
{
    let mut gen_at = [0.0; MOST_BUSES];
    inject(supply, supply.pmax, &mut gen_at);
    let mut shared = [0; MOST_BUSES];
    transformer_corridors(grid, level, &mut shared);
    for k in 0..grid.a.len() {
        let d = circuit_anew(grid, level, supply, &gen_at, &shared, floors, k);
        banks[k] = bank_of(d);
    }
}
