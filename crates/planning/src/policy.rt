// What a mode does, and how many circuits a corridor may hold (`circuit_cap` of planning.rs; document 02, K5).
ghost use Rattle.std.specs.Prelude.{◌≡◌, ◌≤◌};
ghost use Rattle.plan_defs.specs.Constants.{most_cap, subtransmission_max_circuits};
ghost use Rattle.plan_defs.specs.Case.{expand, promote, tops_up, own_or, circuit_cap, cap_by, full_by};

use mode::PlanMode;

// Below this kV a corridor that cannot be raised may have more circuits.
const SUBTRANSMISSION_KV: f64 = 100.0;

const SUBTRANSMISSION_MAX_CIRCUITS: u32 = 6;

const MAX_CIRCUITS_PER_CORRIDOR: u32 = 4;

// Whether it may add circuits and banks.
pub fn expands(mode: PlanMode) -> bool
    ensures { result ≡ expand mode }
{
    !matches!(mode, PlanMode::Observe | PlanMode::ObserveServing)
}

// Whether it may also raise buses, stiffen and fill.
pub fn promotes(mode: PlanMode) -> bool
    ensures { result ≡ promote mode }
{
    matches!(mode, PlanMode::Expand | PlanMode::ExpandServing)
}

// Whether idle units serve what the dispatch leaves of the demand.
pub fn tops_up(mode: PlanMode) -> bool
    ensures { result ≡ tops_up mode }
{
    matches!(
        mode,
        PlanMode::ExpandServing | PlanMode::ReinforceServing | PlanMode::ObserveServing
    )
}

// By whether the plan promotes and the kV of the corridor's higher end.
fn circuit_cap(promote: bool, kv: f64) -> u32
    ensures { (result ≡ circuit_cap promote kv) × (result ≤ subtransmission_max_circuits) }
{
    if !promote & (kv < SUBTRANSMISSION_KV) {
        SUBTRANSMISSION_MAX_CIRCUITS
    } else {
        MAX_CIRCUITS_PER_CORRIDOR
    }
}

// A corridor's own cap takes the place of the usual one; 0 is none.
fn own_or(own: u32, usual: u32) -> u32
    ensures { result ≡ own_or own usual }
{
    if own > 0 { own } else { usual }
}

// The cap of a corridor at a kV, for sizing and the capped count.
pub fn cap_at(mode: PlanMode, own: u32, kv: f64) -> u32
    ensures cap { result ≡ cap_by mode own kv }
    ensures few { own ≤ most_cap → result ≤ subtransmission_max_circuits }
{
    own_or(own, circuit_cap(promotes(mode), kv))
}

// The most circuits that stiffening and filling give a corridor.
pub fn full_at(own: u32) -> u32
    ensures { result ≡ full_by own }
{
    own_or(own, MAX_CIRCUITS_PER_CORRIDOR)
}
