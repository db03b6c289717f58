// Whether a plan may change the network, and document 01's number for it.
#![tactic(auto)]

ghost use Rattle.std.specs.Prelude.{◌≡◌};
ghost use Rattle.mode.specs.Number.{mode_number, Numbered};

#[derive(Clone, Copy, Debug, PartialEq, Eq)]
pub enum PlanMode {
    // Choose voltage levels and circuits.
    Expand = 0,
    // Add circuits and transformer capacity, but keep every bus at its level.
    Reinforce = 1,
    // Keep the corridors as given and only measure.
    Observe = 2,
    // The same three, where idle units serve what the dispatch leaves of the demand.
    ExpandServing = 3,
    ReinforceServing = 4,
    ObserveServing = 5,
}

// A number that no mode has.
#[derive(Clone, Copy, Debug, PartialEq, Eq)]
pub struct UnknownMode(pub u64);

impl PlanMode {
    // A method beside `TryFrom`: `u32::from(mode)` would say the same and no more.
    #[tactic(auto, unfolding(crate::specs::Number::mode_number))]
    pub fn number(self) -> u32
        ensures { result ≡ mode_number self }
    {
        self as u32
    }
}

impl TryFrom<u64> for PlanMode {
    type Error = UnknownMode;

    ghost try_from_gives = { Numbered };

    #[tactic(auto, unfolding(crate::specs::Number::mode_number))]
    fn try_from(number: u64) -> Result<Self, UnknownMode> {
        match number {
            0 => Ok(PlanMode::Expand),
            1 => Ok(PlanMode::Reinforce),
            2 => Ok(PlanMode::Observe),
            3 => Ok(PlanMode::ExpandServing),
            4 => Ok(PlanMode::ReinforceServing),
            5 => Ok(PlanMode::ObserveServing),
            _ => Err(UnknownMode(number)),
        }
    }
}
