// The types that planning and its definition speak of, and a figure's bits as the programs write them. specs/ has the defined plan, proofs/ its laws.
#![tactic(auto)]

ghost use Rattle.std.specs.Prelude.{◌≡◌};
ghost use Rattle.plan_defs.specs.Listing.{bits_of};

use std::num::f64_to_bits_with_nan;

// Where a circuit's rating comes from.
#[derive(Clone, Copy)]
pub enum RatingBasis {
    // The conductor's thermal limit.
    Thermal,
    // What the line's length lets it carry.
    Loadability,
    // The bank, which is smaller than the line.
    Transformer,
}

// The electrical design of one circuit of a corridor, after the Rust's struct.
#[derive(Clone, Copy)]
pub struct CircuitDesign {
    // The higher end, and the other one.
    pub from: usize,
    pub to: usize,
    // Of the higher end.
    pub kv: f64,
    // Series resistance and reactance and charging, per unit, the bank included.
    pub r_pu: f64,
    pub x_pu: f64,
    pub b_pu: f64,
    // MVA, the rating spread included.
    pub rate_a: f64,
    // Whether the ends differ in voltage, and the bank that steps down, MVA; 0 where there is none. Two fields: the defined plan and its
    // theorems read each by itself, and an Option would put a test that the Rust does not make into every definition that reads a bank.
    pub is_transformer: bool,
    pub transformer_mva: f64,
    pub length_km: f64,
    pub rating_basis: RatingBasis,
    // The line alone, before any bank: series r and x, rating before the spread, and its basis.
    pub line_r_pu: f64,
    pub line_x_pu: f64,
    pub line_rate: f64,
    pub line_basis: RatingBasis,
    // The circuit's rating spread, document 01's rate share.
    pub rate_spread: f64,
}

// What planning says of a plan; the rest of it is in the slices that planning is lent. Document 01's PL and MX, and how many
// grounds and added levels there are.
#[derive(Clone, Copy)]
pub struct CorridorPlan {
    pub rounds: u32,
    pub converged: bool,
    // Circuits added in the rounds, in stiffening and in filling.
    pub capacity: u32,
    pub stiffening: u32,
    pub filler: u32,
    // Moves of buses to a higher level.
    pub promoted: u32,
    // Corridors whose bank was enlarged.
    pub upsized: u32,
    pub overloaded: u32,
    pub capped: u32,
    // The highest loading, and the widest spread of a component's angles in radians.
    pub loading: f64,
    pub spread: f64,
    pub grounds: u32,
    pub added: u32,
}

// The bits of a figure in a listing or an answer: a zero is plus zero, and every NaN is one.
pub fn listed_bits(x: f64) -> u64
    ensures { result ≡ bits_of x }
{
    if x == 0.0 { 0 } else { f64_to_bits_with_nan(x) }
}
