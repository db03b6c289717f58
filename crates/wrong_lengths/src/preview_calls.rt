// What a plan of two corridors keeps, with a target that fills one of them.
use crate::lent::{Mark, Wrong, kept, lent, lent_mut};
use crate::operation::{Calls, Operation, Past};
use crate::report::Outcome;
use loops::MOST_CORRIDORS;
use mode::PlanMode;

pub struct Preview;

impl Operation for Preview {
    // Corridors.
    type Asked = usize;

    const SLICES: usize = 4;

    const RIGHT: Calls<usize> = &[("preview", 2)];

    const PAST: Past<usize> = &[("preview of 257 corridors", MOST_CORRIDORS + 1, None)];

    fn call(corridors: usize, wrong: Option<Wrong>) -> Outcome {
        let before = [1, 2, 1];
        let order = [1, 0, 2];
        let cap = [0, 3, 0];
        let mut circuits = [u32::MARK; 3];
        let said = planning::preview_filling(
            PlanMode::Expand,
            4,
            corridors,
            lent(&before, 0, wrong),
            lent(&order, 1, wrong),
            lent(&cap, 2, wrong),
            lent_mut(&mut circuits, 3, wrong),
        );
        Outcome::new(said, kept(&circuits))
    }
}
