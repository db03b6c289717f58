// What the plan of a case file keeps of filling.
ghost use Rattle.std.specs.Prelude.{◌≤◌};
ghost use Rattle.casefile_defs.specs.Bounds.{most_corridors};

use casefile_defs::MOST_CORRIDORS;
use mode::PlanMode;

// In the first places of each array, as planning leaves them: a vector each would hold the one count three times, and a fact that they agree.
#[derive(Clone, Copy)]
pub struct Draft {
    pub mode: PlanMode,
    pub corridors: usize,
    pub before: [u32; MOST_CORRIDORS],
    pub order: [u32; MOST_CORRIDORS],
    pub cap: [u32; MOST_CORRIDORS],
    ghost few: { corridors ≤ most_corridors },
}
