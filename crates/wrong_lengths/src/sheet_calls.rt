// The operations on a sheet of lines.
use crate::lent::{Mark, Wrong, kept, lent, lent_mut};
use crate::operation::{Calls, Operation, Past};
use crate::report::Outcome;
use loops::MOST_CORRIDORS;

// Two levels and a corridor of 100 km.
pub struct Sheet;

impl Operation for Sheet {
    // Corridors.
    type Asked = usize;

    const SLICES: usize = 4;

    const RIGHT: Calls<usize> = &[("sheet", 1)];

    const PAST: Past<usize> = &[("sheet of 257 corridors", MOST_CORRIDORS + 1, None)];

    fn call(corridors: usize, wrong: Option<Wrong>) -> Outcome {
        let ladder = [345.0, 138.0, 69.0];
        let km = [100.0, 50.0];
        let spread = [1.5, 1.0];
        let mut sheet = [f64::MARK; 11];
        let said = line_sheet::line_sheet(
            2,
            corridors,
            lent(&ladder, 0, wrong),
            lent(&km, 1, wrong),
            lent(&spread, 2, wrong),
            lent_mut(&mut sheet, 3, wrong),
        );
        Outcome::new(said, kept(&sheet))
    }
}

// The rows of the first of two corridors, which is surveyed.
pub struct Rows;

impl Operation for Rows {
    // Corridors.
    type Asked = usize;

    const SLICES: usize = 2;

    const RIGHT: Calls<usize> = &[("rows", 2)];

    const PAST: Past<usize> = &[("rows of 257 corridors", MOST_CORRIDORS + 1, None)];

    fn call(corridors: usize, wrong: Option<Wrong>) -> Outcome {
        let surveyed = [f64::MARK; 6];
        let worked = [f64::MARK; 11];
        let rows = line_sheet::corridor_rows(
            1,
            corridors,
            1,
            0,
            lent(&surveyed, 0, wrong),
            lent(&worked, 1, wrong),
        );
        Outcome::Figures(rows.len())
    }
}

// Two corridors' rows at one level, laid out by level.
pub struct Laid;

impl Operation for Laid {
    // Corridors.
    type Asked = usize;

    const SLICES: usize = 2;

    const RIGHT: Calls<usize> = &[("laid", 2)];

    const PAST: Past<usize> = &[("laid of 257 corridors", MOST_CORRIDORS + 1, None)];

    fn call(corridors: usize, wrong: Option<Wrong>) -> Outcome {
        let rows = [1.0; 11];
        let mut sheet = [f64::MARK; 11];
        let said = sheets::lay_out(
            corridors,
            1,
            lent(&rows, 0, wrong),
            lent_mut(&mut sheet, 1, wrong),
        );
        Outcome::new(said, kept(&sheet))
    }
}
