// A case of one level and nothing else.
use crate::lent::{Wrong, lent_mut};
use crate::operation::{Calls, FIRST_SHORT, Operation, Past};
use crate::report::Outcome;
use crate::tables::Tables;

pub const FILE: &[u8] =
    b"HD\x02\x00\x00\x00\x00\x00\x00\x00\x00\x00\x00\x00\x01LV\x00\x00\x00\x00\x00\x40\x61\x40";

// A header whose count of buses is past its bound.
const PAST_FILE: &[u8] = b"HD\x02\x00\x00\x00\x00\x01\x01\x00\x00\x00\x00\x00\x01";

pub struct Reading;

impl Operation for Reading {
    // The file.
    type Asked = &'static [u8];

    const SLICES: usize = Tables::COUNT;

    const RIGHT: Calls<&'static [u8]> = &[("reading", FILE)];

    const PAST: Past<&'static [u8]> = &[
        ("reading of 257 buses", PAST_FILE, None),
        ("reading of 257 buses", PAST_FILE, FIRST_SHORT),
    ];

    // small_calls lends the same slices. One function for both would be handed the operation: `Fn` of seventeen arguments was tried and refused, as it takes twelve
    // at most.
    fn call(file: &'static [u8], wrong: Option<Wrong>) -> Outcome {
        let mut t = Tables::marked();
        let read = casefile::read_case(
            file,
            lent_mut(&mut t.ladder, 0, wrong),
            lent_mut(&mut t.tier, 1, wrong),
            lent_mut(&mut t.reading, 2, wrong),
            lent_mut(&mut t.weight, 3, wrong),
            lent_mut(&mut t.bus, 4, wrong),
            lent_mut(&mut t.slack, 5, wrong),
            lent_mut(&mut t.pmin, 6, wrong),
            lent_mut(&mut t.pmax, 7, wrong),
            lent_mut(&mut t.c1, 8, wrong),
            lent_mut(&mut t.c2, 9, wrong),
            lent_mut(&mut t.a, 10, wrong),
            lent_mut(&mut t.b, 11, wrong),
            lent_mut(&mut t.circuits, 12, wrong),
            lent_mut(&mut t.km, 13, wrong),
            lent_mut(&mut t.share, 14, wrong),
            lent_mut(&mut t.cap, 15, wrong),
            lent_mut(&mut t.sheet, 16, wrong),
        );
        Outcome::new(read.reading, t.kept())
    }
}
