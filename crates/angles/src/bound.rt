// What the norm of a residual is judged by.
ghost use Rattle.std.specs.Prelude.{◌≡◌, true, false};
ghost use Rattle.std.specs.Option.{ForSome};
ghost use Rattle.std.specs.Float.Ieee.{le};
ghost use Rattle.root.specs.Root.{root};
ghost use Rattle.angles.specs.Bounds.{SurelyBeyond, SurelyFar};

// A bound; a square from which on each has a root above it, where one is known; and a limit, such that each figure whose size reaches it
// has such a square: a NaN, which nothing reaches, where none is known.
#[derive(Clone, Copy)]
pub struct Bound {
    pub bound: f64,
    pub limit: f64,
    beyond: Option<f64>,
    ghost sure: { ForSome beyond (λ b. SurelyBeyond b bound) },
    ghost far: { SurelyFar limit bound },
}

// The limit is twice the bound, and the square is its square, where that is above the square of a figure above the bound; neither is known
// where those squares underflow or overflow.
pub fn bound_of(bound: f64) -> Bound
    ensures { result.bound ≡ bound }
{
    let above = 1.5 * bound;
    let twice = 2.0 * bound;
    let square = twice * twice;
    let is_beyond = (0.0 < bound)
        & (0.0 < twice)
        & (bound < above)
        & (0.0 < above * above)
        & (above * above < square);
    Bound {
        bound,
        limit: if is_beyond { twice } else { f64::NAN },
        beyond: is_beyond.then_some(square),
    }
}

impl Bound {
    // Whether the root of a square is above the bound, as far as that is known without working it out.
    #[tactic(auto, using(crate::proofs::Beyond::tested))]
    pub fn surely_beyond(&self, square: f64) -> bool
        ensures { result ≡ true → le (root square) self.now.bound ≡ false }
    {
        self.beyond.is_some_and(|beyond| beyond <= square)
    }
}
