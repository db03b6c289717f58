// Case L, with weights, joined with itself.
use crate::case_l;
use crate::lent::{Off, Wrong, lent, lent_mut};
use crate::operation::{Calls, Operation, Past};
use crate::report::Outcome;
use crate::tables::Tables;
use casefile_defs::Header;
use loops::{MOST_BUSES, MOST_TARGET};
use mode::PlanMode;

const L: Header = Header {
    mode: PlanMode::Observe,
    target: 0,
    buses: 2,
    corridors: 1,
    generators: 1,
    above: 0,
    requested: 1,
};

const MANY: Header = Header {
    buses: MOST_BUSES + 1,
    ..L
};

const PAST_TARGET: Header = Header {
    target: MOST_TARGET + 1,
    ..L
};

const FULL_TARGET: Header = Header {
    target: MOST_TARGET,
    ..L
};

const ONE: Header = Header { target: 1, ..L };

const SERVING: Header = Header {
    mode: PlanMode::ObserveServing,
    ..L
};

// The second case's first slice, and the last of the joined tables.
const SECOND: Option<Wrong> = Some(Wrong {
    slice: 17,
    off: Off::Short,
});

const JOINED: Option<Wrong> = Some(Wrong {
    slice: 50,
    off: Off::Long,
});

pub struct Joining;

impl Operation for Joining {
    // The headers of the two cases.
    type Asked = (Header, Header);

    // The tables of each case, then the joined ones.
    const SLICES: usize = 3 * Tables::COUNT;

    const RIGHT: Calls<(Header, Header)> = &[("joining", (L, L))];

    // A target past its bound in the first case, targets past it together, and two modes, each with a wrong slice too: the joined tables come
    // before the first case, and that before the second.
    const PAST: Past<(Header, Header)> = &[
        ("joining 257 buses", (MANY, L), None),
        ("joining with 257 buses", (L, MANY), None),
        ("joining a target past its bound", (PAST_TARGET, L), SECOND),
        ("joining a target past its bound", (PAST_TARGET, L), JOINED),
        (
            "joining to a target past its bound",
            (FULL_TARGET, ONE),
            None,
        ),
        (
            "joining to a target past its bound",
            (FULL_TARGET, ONE),
            SECOND,
        ),
        ("joining two modes", (L, SERVING), None),
        ("joining two modes", (L, SERVING), SECOND),
    ];

    // As long as the operation has slices, each lent by a line.
    fn call((first, second): Self::Asked, wrong: Option<Wrong>) -> Outcome {
        let l = case_l::L;
        let ladder = [138.0, 69.0];
        let sheet = [0.0, 0.5, 0.0, 100.0, 0.0, 0.0];
        let mut joined = Tables::marked();
        let said = join::join_cases(
            first,
            lent(&ladder, 0, wrong),
            lent(&l.tier, 1, wrong),
            lent(&l.reading, 2, wrong),
            lent(&l.weight, 3, wrong),
            lent(&l.bus, 4, wrong),
            lent(&l.slack, 5, wrong),
            lent(&l.pmin, 6, wrong),
            lent(&l.pmax, 7, wrong),
            lent(&l.c1, 8, wrong),
            lent(&l.c2, 9, wrong),
            lent(&l.a, 10, wrong),
            lent(&l.b, 11, wrong),
            lent(&l.circuits, 12, wrong),
            lent(&l.km, 13, wrong),
            lent(&l.share, 14, wrong),
            lent(&l.cap, 15, wrong),
            lent(&sheet, 16, wrong),
            second,
            lent(&ladder, 17, wrong),
            lent(&l.tier, 18, wrong),
            lent(&l.reading, 19, wrong),
            lent(&l.weight, 20, wrong),
            lent(&l.bus, 21, wrong),
            lent(&l.slack, 22, wrong),
            lent(&l.pmin, 23, wrong),
            lent(&l.pmax, 24, wrong),
            lent(&l.c1, 25, wrong),
            lent(&l.c2, 26, wrong),
            lent(&l.a, 27, wrong),
            lent(&l.b, 28, wrong),
            lent(&l.circuits, 29, wrong),
            lent(&l.km, 30, wrong),
            lent(&l.share, 31, wrong),
            lent(&l.cap, 32, wrong),
            lent(&sheet, 33, wrong),
            lent_mut(&mut joined.ladder, 34, wrong),
            lent_mut(&mut joined.tier, 35, wrong),
            lent_mut(&mut joined.reading, 36, wrong),
            lent_mut(&mut joined.weight, 37, wrong),
            lent_mut(&mut joined.bus, 38, wrong),
            lent_mut(&mut joined.slack, 39, wrong),
            lent_mut(&mut joined.pmin, 40, wrong),
            lent_mut(&mut joined.pmax, 41, wrong),
            lent_mut(&mut joined.c1, 42, wrong),
            lent_mut(&mut joined.c2, 43, wrong),
            lent_mut(&mut joined.a, 44, wrong),
            lent_mut(&mut joined.b, 45, wrong),
            lent_mut(&mut joined.circuits, 46, wrong),
            lent_mut(&mut joined.km, 47, wrong),
            lent_mut(&mut joined.share, 48, wrong),
            lent_mut(&mut joined.cap, 49, wrong),
            lent_mut(&mut joined.sheet, 50, wrong),
        );
        Outcome::new(said, joined.kept())
    }
}
