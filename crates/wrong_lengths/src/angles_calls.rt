// Two buses, an edge between them and a ground at the first.
use crate::lent::{Mark, Wrong, kept, lent, lent_mut};
use crate::operation::{Calls, Operation, Past};
use crate::report::Outcome;
use loops::MOST_BUSES;

pub struct Angles;

impl Operation for Angles {
    // Buses.
    type Asked = usize;

    const SLICES: usize = 8;

    const RIGHT: Calls<usize> = &[("angles", 2)];

    const PAST: Past<usize> = &[("angles of 257 buses", MOST_BUSES + 1, None)];

    fn call(buses: usize, wrong: Option<Wrong>) -> Outcome {
        let from = [0, 0];
        let to = [1, 1];
        let weight = [2.0, 1.0];
        let injection = [0.0, -0.5, 0.0];
        let grounds = [0, 0];
        let guess = [0.0, 0.0, 0.0];
        let mut angle = [f64::MARK; 3];
        let mut work = [f64::MARK; 17];
        let said = angles::dc_angles(
            buses,
            1,
            1,
            lent(&from, 0, wrong),
            lent(&to, 1, wrong),
            lent(&weight, 2, wrong),
            lent(&injection, 3, wrong),
            lent(&grounds, 4, wrong),
            lent(&guess, 5, wrong),
            lent_mut(&mut angle, 6, wrong),
            lent_mut(&mut work, 7, wrong),
        );
        Outcome::new(said, kept(&angle) & kept(&work))
    }
}
