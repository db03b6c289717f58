// One form for all operations: what each is called with, and a line for each call that says what came of it.
use crate::lent::{Off, Wrong};
use crate::report::{Outcome, report};
use std::io;
use std::io::Write;

// Calls by name, with what each asks for.
pub type Calls<A> = &'static [(&'static str, A)];

// The same with the slice that has not its length.
pub type Past<A> = &'static [(&'static str, A, Option<Wrong>)];

pub const FIRST_SHORT: Option<Wrong> = Some(Wrong {
    slice: 0,
    off: Off::Short,
});

pub const FIRST_LONG: Option<Wrong> = Some(Wrong {
    slice: 0,
    off: Off::Long,
});

pub trait Operation {
    // What a call asks for beside the lent slices.
    type Asked: Copy + 'static;

    // How many slices it has.
    const SLICES: usize;

    // What is right when every length is.
    const RIGHT: Calls<Self::Asked>;

    // What is past a bound, and so never right.
    const PAST: Past<Self::Asked>;

    fn call(asked: Self::Asked, wrong: Option<Wrong>) -> Outcome;
}

// Every length right; then what is past a bound.
fn first<O: Operation, W: Write>(to: &mut W) -> io::Result<()> {
    for &(what, asked) in O::RIGHT {
        report(to, what, None, O::call(asked, None))?;
    }
    for &(what, asked, wrong) in O::PAST {
        report(to, what, wrong, O::call(asked, wrong))?;
    }
    Ok(())
}

// One slice too short, and too long, where there is such a slice.
fn both<O: Operation, W: Write>(to: &mut W, slice: usize) -> io::Result<()> {
    if O::SLICES <= slice {
        return Ok(());
    }
    for off in [Off::Short, Off::Long] {
        let wrong = Some(Wrong { slice, off });
        for &(what, asked) in O::RIGHT {
            report(to, what, wrong, O::call(asked, wrong))?;
        }
    }
    Ok(())
}

// With no slice the calls of `first`, and with one those of `both`.
pub fn calls<O: Operation, W: Write>(to: &mut W, slice: Option<usize>) -> io::Result<()> {
    match slice {
        None => first::<O, W>(to),
        Some(slice) => both::<O, W>(to, slice),
    }
}
