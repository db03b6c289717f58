// Figures as the definitions have them. Std's own are taken for the infinity and the test of finite; not for the others, since the
// definitions say more: `f64::min` and `f64::max` pass over a NaN and leave open which of two equal zeros they answer, `f64::abs` makes
// -0 a 0, `f64::clamp` asks for a low end that is at most the high one, and an iterator's `sum` begins at -0.
ghost use Rattle.std.specs.Prelude.{◌≡◌, length};
ghost use Rattle.loops.specs.Figures.{at, infinity, finite, lesser, greater, magnitude, clamped};
ghost use Rattle.loops.specs.Loops.{sum_to};

pub fn infinity() -> f64
    ensures { result ≡ infinity }
{
    f64::INFINITY
}

// Neither a NaN nor an infinity.
#[tactic(auto, using(crate::proofs::Finite::finite_is))]
pub fn is_finite(x: f64) -> bool
    ensures { result ≡ finite x }
{
    x.is_finite()
}

pub fn lesser(x: f64, y: f64) -> f64
    ensures { result ≡ lesser x y }
{
    if y < x { y } else { x }
}

pub fn greater(x: f64, y: f64) -> f64
    ensures { result ≡ greater x y }
{
    if x < y { y } else { x }
}

pub fn magnitude(x: f64) -> f64
    ensures { result ≡ magnitude x }
{
    if x < 0.0 { -x } else { x }
}

pub fn clamp(x: f64, lo: f64, hi: f64) -> f64
    ensures { result ≡ clamped lo hi x }
{
    if x < lo {
        lo
    } else if hi < x {
        hi
    } else {
        x
    }
}

// From the first on, beginning at 0.
#[tactic(auto, unfolding(crate::specs::Loops::sum_to))]
pub fn sum(xs: &[f64]) -> f64
    ensures { result ≡ sum_to (at xs.now) (length xs.now) }
{
    let mut sum = 0.0;
    for x in xs {
        sum += *x;
    }
    sum
}
