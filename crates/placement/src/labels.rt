// What a search knows of each bus.
ghost use Rattle.std.specs.Prelude.{◌≡◌};
ghost use Rattle.placement_defs.specs.Request.{most_buses};
ghost use Rattle.placement_defs.specs.Distance.{labels, blank};
ghost use Rattle.placement.specs.Blocks.{Numbers};
ghost use Rattle.placement.specs.Marks.{marks_in, origins_in};

use loops::MOST_BUSES;

// The three sets of the method: the rest, those from which the next is chosen, and those whose least distance is known.
#[derive(Clone, Copy)]
pub enum Mark {
    Rest,
    Candidate,
    Settled,
}

// Of each bus the set that it is in, its distance, and the source that it comes from, in eight binary digits: there are 256 buses at most.
#[derive(Drop)]
pub struct Labels {
    pub mark: [Mark; MOST_BUSES],
    pub dist: [f64; MOST_BUSES],
    pub from: [Option<u8>; MOST_BUSES],
    ghost numbers: { Numbers most_buses (marks_in mark) dist },
}

// The distances while no bus is reached. A static, read by its address, is copied once; an array written out here is made zero, filled and
// then moved.
static FAR: [f64; MOST_BUSES] = [f64::INFINITY; MOST_BUSES];

impl Labels {
    // To start with, no bus is reached.
    pub fn blank() -> Labels
        ensures { labels (marks_in result.mark) result.dist (origins_in result.from) ≡ blank }
    {
        let far = &FAR;
        Labels {
            mark: [Mark::Rest; MOST_BUSES],
            dist: *far,
            from: [None; MOST_BUSES],
        }
    }
}
