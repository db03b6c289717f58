// The types of a season of plans (document 02, K3). There is no code here: specs/ has its definitions, proofs/ its theorems.
#![tactic(auto)]

pub use loops::MOST_CORRIDORS;

// The most plans that a season takes.
pub const MOST_PLANS: u32 = 4_096;

// What is kept of the plans taken; place k of an array is of corridor k.
#[derive(Clone, Copy, PartialEq)]
pub struct Season {
    pub taken: u32,
    // Of each plan taken.
    pub corridors: usize,
    // Sums: of the rounds, and how many plans converged.
    pub rounds: u64,
    pub converged: u64,
    // The least, the greatest and the sum of the circuits: an array for each, since callers read these fields by their names.
    pub least: [u32; MOST_CORRIDORS],
    pub greatest: [u32; MOST_CORRIDORS],
    pub total: [u64; MOST_CORRIDORS],
}

// A fraction of two whole numbers.
#[derive(Clone, Copy)]
pub struct Ratio {
    pub over: u64,
    pub under: u64,
}

// Of one corridor index.
#[derive(Clone, Copy)]
pub struct CorridorFigures {
    pub least: u32,
    pub greatest: u32,
    pub mean: Ratio,
}

// Over all plans: how many there are, their mean rounds, and the share that converged.
#[derive(Clone, Copy)]
pub struct SeasonFigures {
    pub plans: u32,
    pub rounds: Ratio,
    pub converged: Ratio,
}
