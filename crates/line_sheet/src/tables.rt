// The tables of a request, which go with the fact that they passed.
ghost use Rattle.line_defs.specs.Request.{Sound};
ghost use Rattle.std.specs.Prelude.{◌≡◌};
ghost use Rattle.line_sheet.specs.Classes.{levels_in};

use crate::row::{Level, LineClass, level_of};
use loops::MOST_LEVELS;

// The kV of the levels and what the rows have of each, worked out once; and the length and the impedance spread of each corridor.
#[derive(Clone, Copy)]
pub struct Tables<'a> {
    pub levels: usize,
    pub corridors: usize,
    pub ladder: &'a [f64],
    pub each: [Level; MOST_LEVELS],
    pub km: &'a [f64],
    pub spread: &'a [f64],
    ghost sound: { Sound levels corridors ladder.now km.now spread.now },
    ghost levelled: { each ≡ levels_in ladder.now },
}

const NO_CLASS: LineClass = LineClass {
    kv: 0.0,
    r: 0.0,
    x: 0.0,
    b: 0.0,
    thermal: 0.0,
    sil: 0.0,
};

const NO_LEVEL: Level = Level {
    class: NO_CLASS,
    z: 0.0,
    ratio: 0.0,
};

pub fn levels_of(ladder: &[f64]) -> [Level; MOST_LEVELS]
    ensures { result ≡ levels_in ladder.now }
{
    let mut each = [NO_LEVEL; MOST_LEVELS];
    loops::fill_first(&mut each, ladder.len(), NO_LEVEL, |l| level_of(ladder[l]));
    each
}
