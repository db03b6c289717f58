// Series impedance of a transformer by its size class (`transformer_impedance` of branches.rs, classes of params.rs).
#![tactic(auto)]

ghost use Rattle.std.specs.Prelude.{◌≡◌};
ghost use Rattle.root.specs.Root.{root};
ghost use Rattle.refusal.specs.Reply.{reply_of};
ghost use Rattle.impedance.specs.Impedance.{by_class, reactance, impedance_of, rating_ok, defined};

use refusal::Refusal;

// Resistance and reactance, per unit on 100 MVA.
#[derive(Clone, Copy)]
pub struct SeriesImpedance {
    pub r: f64,
    pub x: f64,
}

// System base, MVA.
const BASE_MVA: f64 = 100.0;

// The classes of ratings, MVA: up to the first, up to the second, and above.
const SMALL_MVA: f64 = 100.0;

const MEDIUM_MVA: f64 = 400.0;

// Of each class the impedance on the transformer's own base, per unit, and X/R.
const SMALL_Z: f64 = 0.12;

const MEDIUM_Z: f64 = 0.125;

const LARGE_Z: f64 = 0.13;

const SMALL_X_OVER_R: f64 = 25.0;

const MEDIUM_X_OVER_R: f64 = 35.0;

const LARGE_X_OVER_R: f64 = 45.0;

// What a transformer of this rating has, of its class.
#[tactic(auto, unfolding(crate::specs::Impedance::by_class))]
fn by_class(mva: f64, small: f64, medium: f64, large: f64) -> f64
    ensures { result ≡ by_class mva small medium large }
{
    if mva <= SMALL_MVA {
        small
    } else if mva <= MEDIUM_MVA {
        medium
    } else {
        large
    }
}

fn rating_ok(mva: f64) -> bool
    ensures { result ≡ rating_ok mva }
{
    0.0 < mva && mva < loops::infinity()
}

#[tactic(auto, unfolding(crate::specs::Impedance::reactance))]
fn reactance(z: f64, x_over_r: f64, mva: f64) -> f64
    ensures { result ≡ reactance z x_over_r mva }
{
    z * BASE_MVA / mva / root::sqrt(1.0 + 1.0 / (x_over_r * x_over_r))
}

#[tactic(auto, unfolding(crate::specs::Impedance::impedance_of))]
fn impedance_of(mva: f64) -> SeriesImpedance
    ensures { result ≡ impedance_of mva }
{
    let z_pu_own_base = by_class(mva, SMALL_Z, MEDIUM_Z, LARGE_Z);
    let x_over_r = by_class(mva, SMALL_X_OVER_R, MEDIUM_X_OVER_R, LARGE_X_OVER_R);
    let x = reactance(z_pu_own_base, x_over_r, mva);
    SeriesImpedance { r: x / x_over_r, x }
}

// The impedance of a bank of `mva`. Of a tiny rating it is infinite, and is answered.
#[tactic(auto, unfolding(crate::specs::Impedance::defined))]
pub fn transformer_impedance(mva: f64) -> Result<SeriesImpedance, Refusal>
    ensures { reply_of result ≡ defined mva }
{
    if !rating_ok(mva) {
        return Err(Refusal::Rating);
    }
    Ok(impedance_of(mva))
}
