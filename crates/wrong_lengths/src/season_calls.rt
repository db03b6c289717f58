// A plan of two corridors, fed to an empty season. The slice is only read; what must be kept is the season.
use crate::lent::{Mark, Wrong, lent};
use crate::operation::{Calls, Operation, Past};
use crate::report::Outcome;
use loops::MOST_CORRIDORS;
use plan_defs::CorridorPlan;

const PLAN: CorridorPlan = CorridorPlan {
    rounds: 1,
    converged: true,
    capacity: 0,
    stiffening: 0,
    filler: 0,
    promoted: 0,
    upsized: 0,
    overloaded: 0,
    capped: 0,
    loading: 0.5,
    spread: 0.0,
    grounds: 1,
    added: 0,
};

pub struct Season;

impl Operation for Season {
    // Corridors.
    type Asked = usize;

    const SLICES: usize = 1;

    const RIGHT: Calls<usize> = &[("season", 2)];

    const PAST: Past<usize> = &[("season of 257 corridors", MOST_CORRIDORS + 1, None)];

    fn call(corridors: usize, wrong: Option<Wrong>) -> Outcome {
        let circuits = [u32::MARK; 3];
        let mut fed = season::begin();
        let said = season::add_plan(&mut fed, PLAN, corridors, lent(&circuits, 0, wrong));
        Outcome::new(said, fed == season::begin())
    }
}
