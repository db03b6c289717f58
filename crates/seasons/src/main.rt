// Reads case files on standard input, each in 65,536 bytes and the last in as many as are left, plans each and takes its plan
// into a season. Prints the refusal of each file that is not taken, and then the season's figures. What becomes of a file is
// proved (feed_file); that the words printed are those of the season is tested.
#![tactic(auto)]

mod file;

use casefile_defs::MOST_BYTES;
use file::feed_file;
use season::{begin, corridor_figures, season_figures};
use season_defs::{Ratio, Season};
use std::io;
use std::io::{Read, Write};
use streams::write_field;

// Prints RF place number index of each file that is refused. A proved loop has to end, and nothing says that the input does: no
// run reaches the last place.
fn feed_all<R: Read, W: Write>(from: &mut R, to: &mut W) -> io::Result<Season> {
    let mut season = begin();
    let mut file = [0; MOST_BYTES];
    for place in 0..u64::MAX {
        let n = streams::read_full(from, &mut file)?;
        if n == 0 {
            break;
        }
        if let Err(f) = feed_file(&mut season, &file[..n]) {
            write!(to, "RF")?;
            write_field(to, place)?;
            writeln!(to, " {f}")?;
        }
        if n < MOST_BYTES {
            break;
        }
    }
    Ok(season)
}

// A ratio ends its line: over under
fn print_ratio<W: Write>(to: &mut W, ratio: Ratio) -> io::Result<()> {
    write_field(to, ratio.over)?;
    write_field(to, ratio.under)?;
    writeln!(to)
}

// CO index least greatest over under
fn print_corridor<W: Write>(to: &mut W, season: &Season, k: usize) -> io::Result<()> {
    let f = corridor_figures(season, k);
    write!(to, "CO")?;
    write_field(to, k as u64)?;
    write_field(to, u64::from(f.least))?;
    write_field(to, u64::from(f.greatest))?;
    print_ratio(to, f.mean)
}

// SE plans, a line for each corridor index, RO over under, CV over under
fn print_season<W: Write>(to: &mut W, season: &Season) -> io::Result<()> {
    let f = season_figures(season);
    write!(to, "SE")?;
    write_field(to, u64::from(f.plans))?;
    writeln!(to)?;
    for k in 0..season.corridors {
        print_corridor(to, season, k)?;
    }
    write!(to, "RO")?;
    print_ratio(to, f.rounds)?;
    write!(to, "CV")?;
    print_ratio(to, f.converged)
}

fn main(rt: HostRuntime) -> io::Result<()> {
    let mut to = rt.stdout();
    let season = feed_all(&mut rt.stdin(), &mut to)?;
    print_season(&mut to, &season)
}
