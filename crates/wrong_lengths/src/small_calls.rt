// The last small network.
use crate::lent::{Wrong, lent_mut};
use crate::operation::{Calls, FIRST_SHORT, Operation, Past};
use crate::report::Outcome;
use crate::tables::Tables;

// The last place.
const LAST: usize = 73;

pub struct Small;

impl Operation for Small {
    // The place.
    type Asked = usize;

    const SLICES: usize = Tables::COUNT;

    const RIGHT: Calls<usize> = &[("small", LAST)];

    const PAST: Past<usize> = &[
        ("small at 74", LAST + 1, None),
        ("small at 74", LAST + 1, FIRST_SHORT),
    ];

    fn call(place: usize, wrong: Option<Wrong>) -> Outcome {
        let mut t = Tables::marked();
        let said = small::small_network(
            place,
            lent_mut(&mut t.ladder, 0, wrong),
            lent_mut(&mut t.tier, 1, wrong),
            lent_mut(&mut t.reading, 2, wrong),
            lent_mut(&mut t.weight, 3, wrong),
            lent_mut(&mut t.bus, 4, wrong),
            lent_mut(&mut t.slack, 5, wrong),
            lent_mut(&mut t.pmin, 6, wrong),
            lent_mut(&mut t.pmax, 7, wrong),
            lent_mut(&mut t.c1, 8, wrong),
            lent_mut(&mut t.c2, 9, wrong),
            lent_mut(&mut t.a, 10, wrong),
            lent_mut(&mut t.b, 11, wrong),
            lent_mut(&mut t.circuits, 12, wrong),
            lent_mut(&mut t.km, 13, wrong),
            lent_mut(&mut t.share, 14, wrong),
            lent_mut(&mut t.cap, 15, wrong),
            lent_mut(&mut t.sheet, 16, wrong),
        );
        Outcome::new(said, t.kept())
    }
}
