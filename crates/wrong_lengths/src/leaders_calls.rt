// Three buses and two corridors.
use crate::lent::{Mark, Wrong, kept, lent, lent_mut};
use crate::operation::{Calls, Operation, Past};
use crate::report::Outcome;
use loops::MOST_BUSES;

pub struct Leaders;

impl Operation for Leaders {
    // Buses.
    type Asked = usize;

    const SLICES: usize = 3;

    const RIGHT: Calls<usize> = &[("leaders", 3)];

    const PAST: Past<usize> = &[("leaders of 257 buses", MOST_BUSES + 1, None)];

    fn call(buses: usize, wrong: Option<Wrong>) -> Outcome {
        let a = [0, 1, 2];
        let b = [1, 2, 0];
        let mut leader = [u32::MARK; 4];
        let said = leaders::leaders(
            buses,
            2,
            lent(&a, 0, wrong),
            lent(&b, 1, wrong),
            lent_mut(&mut leader, 2, wrong),
        );
        Outcome::new(said, kept(&leader))
    }
}
