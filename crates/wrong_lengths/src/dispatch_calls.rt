// Two units and a demand between their limits.
use crate::lent::{Mark, Wrong, kept, lent, lent_mut};
use crate::operation::{Calls, Operation, Past};
use crate::report::Outcome;
use loops::MOST_GENERATORS;

pub struct Dispatch;

impl Operation for Dispatch {
    // Units.
    type Asked = usize;

    const SLICES: usize = 5;

    const RIGHT: Calls<usize> = &[("dispatch", 2)];

    const PAST: Past<usize> = &[("dispatch of 129 units", MOST_GENERATORS + 1, None)];

    fn call(units: usize, wrong: Option<Wrong>) -> Outcome {
        let pmin = [0.0, 10.0, 0.0];
        let pmax = [100.0, 50.0, 0.0];
        let c1 = [10.0, 20.0, 0.0];
        let c2 = [0.5, 0.25, 0.0];
        let mut mw = [f64::MARK; 3];
        let said = dispatch::economic_dispatch(
            units,
            lent(&pmin, 0, wrong),
            lent(&pmax, 1, wrong),
            lent(&c1, 2, wrong),
            lent(&c2, 3, wrong),
            60.0,
            lent_mut(&mut mw, 4, wrong),
        );
        Outcome::new(said, kept(&mw))
    }
}
