// The arrays that a call is lent. Each has one place more than is right, so that its slice may be one too long.
ghost use Rattle.std.specs.Prelude.{◌≤◌, length};

use std::fmt;

// What is the matter with a slice's length, by one place.
#[derive(Clone, Copy)]
pub enum Off {
    Short,
    Long,
}

impl fmt::Display for Off {
    fn fmt<W: fmt::Write>(&self, f: &mut fmt::Formatter<W>) -> fmt::Result {
        f.write_str(match self {
            Off::Short => "short",
            Off::Long => "long",
        })
    }
}

// The slice that has not its length, by its place among the operation's slices from 0.
#[derive(Clone, Copy)]
pub struct Wrong {
    pub slice: usize,
    pub off: Off,
}

// How much of an array of so many places the slice at `place` of the call is.
fn lent_length(places: usize, place: usize, wrong: Option<Wrong>) -> usize
    requires { 2 ≤ places }
    ensures { result ≤ places }
{
    match wrong {
        Some(Wrong { slice, off }) if slice == place => match off {
            Off::Short => places - 2,
            Off::Long => places,
        },
        _ => places - 1,
    }
}

// The slice of an array that the call has at `place`.
pub fn lent<T>(array: &[T], place: usize, wrong: Option<Wrong>) -> &[T]
    requires { 2 ≤ length array.now }
{
    &array[..lent_length(array.len(), place, wrong)]
}

pub fn lent_mut<T>(array: &mut [T], place: usize, wrong: Option<Wrong>) -> &mut [T]
    requires { 2 ≤ length array.old }
{
    let length = lent_length(array.len(), place, wrong);
    &mut array[..length]
}

// What each place of a lent array holds before the call.
pub trait Mark: Copy + PartialEq {
    const MARK: Self;
}

impl Mark for u8 {
    const MARK: u8 = 7;
}

impl Mark for u32 {
    const MARK: u32 = 7;
}

impl Mark for f64 {
    const MARK: f64 = 7.0;
}

// Whether every place holds its mark still.
pub fn kept<T: Mark>(array: &[T]) -> bool {
    array.iter().all(|x| *x == T::MARK)
}
