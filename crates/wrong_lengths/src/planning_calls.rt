// Case L with one level more, above the request.
use crate::case_l;
use crate::lent::{Mark, Wrong, kept, lent, lent_mut};
use crate::operation::{Calls, Operation, Past};
use crate::report::Outcome;
use loops::MOST_BUSES;
use mode::PlanMode;

// The places of a work slice, and one more.
const WORK: usize = 49;

pub struct Planning;

impl Operation for Planning {
    // Buses.
    type Asked = usize;

    const SLICES: usize = 30;

    const RIGHT: Calls<usize> = &[("planning", 2)];

    const PAST: Past<usize> = &[("planning of 257 buses", MOST_BUSES + 1, None)];

    // As long as the operation has slices, each lent by a line.
    fn call(buses: usize, wrong: Option<Wrong>) -> Outcome {
        let l = case_l::L;
        let ladder = [230.0, 138.0, 69.0];
        let sheet = [0.0, 0.5, 0.0, 100.0, 0.0, 0.0, 0.5, 0.0, 100.0, 0.0, 0.0];
        let mut circuits = [u32::MARK; 2];
        let mut flow = [f64::MARK; 2];
        let mut rate = [f64::MARK; 2];
        let mut before = [u32::MARK; 2];
        let mut order = [u32::MARK; 2];
        let mut kept_cap = [u32::MARK; 2];
        let mut mw = [f64::MARK; 2];
        let mut angle = [f64::MARK; 3];
        let mut final_tier = [u32::MARK; 3];
        let mut ground = [u32::MARK; 3];
        let mut added = [f64::MARK; 2];
        let mut figures = [f64::MARK; WORK];
        let mut counts = [u32::MARK; WORK];
        let said = planning::plan_corridors(
            PlanMode::Observe,
            0,
            buses,
            1,
            1,
            1,
            1,
            lent(&ladder, 0, wrong),
            lent(&l.tier, 1, wrong),
            lent(&l.reading, 2, wrong),
            lent(&l.weight, 3, wrong),
            lent(&l.bus, 4, wrong),
            lent(&l.slack, 5, wrong),
            lent(&l.pmin, 6, wrong),
            lent(&l.pmax, 7, wrong),
            lent(&l.c1, 8, wrong),
            lent(&l.c2, 9, wrong),
            lent(&l.a, 10, wrong),
            lent(&l.b, 11, wrong),
            lent(&l.circuits, 12, wrong),
            lent(&l.km, 13, wrong),
            lent(&l.share, 14, wrong),
            lent(&l.cap, 15, wrong),
            lent(&sheet, 16, wrong),
            lent_mut(&mut circuits, 17, wrong),
            lent_mut(&mut flow, 18, wrong),
            lent_mut(&mut rate, 19, wrong),
            lent_mut(&mut before, 20, wrong),
            lent_mut(&mut order, 21, wrong),
            lent_mut(&mut kept_cap, 22, wrong),
            lent_mut(&mut mw, 23, wrong),
            lent_mut(&mut angle, 24, wrong),
            lent_mut(&mut final_tier, 25, wrong),
            lent_mut(&mut ground, 26, wrong),
            lent_mut(&mut added, 27, wrong),
            lent_mut(&mut figures, 28, wrong),
            lent_mut(&mut counts, 29, wrong),
        );
        let plan = kept(&circuits) & kept(&flow) & kept(&rate) & kept(&mw);
        let filling = kept(&before) & kept(&order) & kept(&kept_cap);
        let buses_kept = kept(&angle) & kept(&final_tier) & kept(&ground);
        let work = kept(&figures) & kept(&counts);
        Outcome::new(said, plan & filling & buses_kept & kept(&added) & work)
    }
}
