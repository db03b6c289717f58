// A case in memory, its header and its tables, and reading it from a file: what the programs that read a case file start from.
#![tactic(auto)]

mod case;
mod fronts;
mod reading;

pub use case::Case;
pub use fronts::Fronts;
pub use reading::Reading;
