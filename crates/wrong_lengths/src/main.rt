// Calls each operation with each of its slices one place too short and one too long, which no text can ask for, and prints what
// it answered and whether the lent arrays kept their contents. Before that each is called with every length right, and with a
// count past its bound that makes lengths wrong too, or a place past the last: refusal 1 comes before 2, 23 and 24.
#![tactic(auto)]

mod angles_calls;
mod case_l;
mod dispatch_calls;
mod join_calls;
mod leaders_calls;
mod lent;
mod moving_calls;
mod operation;
mod placement_calls;
mod planning_calls;
mod preview_calls;
mod reading_calls;
mod report;
mod season_calls;
mod sheet_calls;
mod small_calls;
mod tables;

use angles_calls::Angles;
use dispatch_calls::Dispatch;
use join_calls::Joining;
use leaders_calls::Leaders;
use moving_calls::Moving;
use operation::{Operation, calls};
use placement_calls::Placement;
use planning_calls::Planning;
use preview_calls::Preview;
use reading_calls::Reading;
use season_calls::Season;
use sheet_calls::{Laid, Rows, Sheet};
use small_calls::Small;
use std::io;
use std::io::Write;

fn all<W: Write>(to: &mut W, slice: Option<usize>) -> io::Result<()> {
    calls::<Leaders, W>(to, slice)?;
    calls::<Dispatch, W>(to, slice)?;
    calls::<Angles, W>(to, slice)?;
    calls::<Placement, W>(to, slice)?;
    calls::<Planning, W>(to, slice)?;
    calls::<Preview, W>(to, slice)?;
    calls::<Reading, W>(to, slice)?;
    calls::<Moving, W>(to, slice)?;
    calls::<Sheet, W>(to, slice)?;
    calls::<Rows, W>(to, slice)?;
    calls::<Laid, W>(to, slice)?;
    calls::<Season, W>(to, slice)?;
    calls::<Small, W>(to, slice)?;
    calls::<Joining, W>(to, slice)
}

fn main(rt: HostRuntime) -> io::Result<()> {
    let mut to = rt.stdout();
    all(&mut to, None)?;
    // Joining has the most.
    for slice in 0..Joining::SLICES {
        all(&mut to, Some(slice))?;
    }
    Ok(())
}
