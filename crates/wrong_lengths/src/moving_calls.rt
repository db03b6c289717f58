// A case of one level and no bus, which may be moved either way.
use crate::lent::{Mark, Wrong, kept, lent_mut};
use crate::operation::{Calls, FIRST_LONG, Operation, Past};
use crate::reading_calls::FILE;
use crate::report::Outcome;
use casefile_defs::MOST_BYTES;

// A file that ends in its header.
const CUT: &[u8] = b"HD";

#[derive(Clone, Copy)]
pub enum Way {
    Forward,
    Back,
}

pub struct Moving;

impl Operation for Moving {
    // Which way, and whether the file is cut. A constant with a function in it was tried, and the compiler refused it; nor may it hold a file beside a kind.
    type Asked = (Way, bool);

    const SLICES: usize = 1;

    const RIGHT: Calls<(Way, bool)> = &[
        ("moving forward", (Way::Forward, false)),
        ("moving back", (Way::Back, false)),
    ];

    const PAST: Past<(Way, bool)> = &[
        (
            "moving a cut file forward",
            (Way::Forward, true),
            FIRST_LONG,
        ),
        ("moving a cut file back", (Way::Back, true), FIRST_LONG),
    ];

    fn call((way, cut): Self::Asked, wrong: Option<Wrong>) -> Outcome {
        let file = if cut { CUT } else { FILE };
        let mut out = [u8::MARK; MOST_BYTES + 1];
        let to = lent_mut(&mut out, 0, wrong);
        let said = match way {
            Way::Forward => casefile::move_forward(file, to),
            Way::Back => casefile::move_back(file, to),
        };
        Outcome::new(said, kept(&out))
    }
}
