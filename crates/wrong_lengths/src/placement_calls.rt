// Three buses in a row, the load 120 km from the generator.
use crate::lent::{Mark, Wrong, kept, lent, lent_mut};
use crate::operation::{Calls, Operation, Past};
use crate::report::Outcome;
use loops::MOST_BUSES;

pub struct Placement;

impl Operation for Placement {
    // Buses.
    type Asked = usize;

    const SLICES: usize = 8;

    const RIGHT: Calls<usize> = &[("placement", 3)];

    const PAST: Past<usize> = &[("placement of 257 buses", MOST_BUSES + 1, None)];

    fn call(buses: usize, wrong: Option<Wrong>) -> Outcome {
        let reading = [0.0, 0.0, 20.0, 0.0];
        let weight = [1.0, 1.0, 2.0, 1.0];
        let a = [0, 1, 0];
        let b = [1, 2, 1];
        let km = [60.0, 60.0, 1.0];
        let bus = [0, 0];
        let mut at = [u32::MARK; 4];
        let mut mvar = [f64::MARK; 4];
        let said = placement::place_voltage_support(
            buses,
            2,
            1,
            lent(&reading, 0, wrong),
            lent(&weight, 1, wrong),
            lent(&a, 2, wrong),
            lent(&b, 3, wrong),
            lent(&km, 4, wrong),
            lent(&bus, 5, wrong),
            lent_mut(&mut at, 6, wrong),
            lent_mut(&mut mvar, 7, wrong),
        );
        Outcome::new(said, kept(&at) & kept(&mvar))
    }
}
