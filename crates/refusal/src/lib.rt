// What every operation says of a request that it does not answer, and the documents' number and index for it.
#![tactic(auto)]

ghost use Rattle.std.specs.Prelude.{◌≡◌};
ghost use Rattle.refusal.specs.Number.{number_of, index_of};

use std::error::Error;
use std::fmt;

// What is wrong with a request. A number is the lowest faulty index.
#[derive(Clone, Copy, Debug, PartialEq, Eq)]
pub enum Refusal {
    // A slice has not its length.
    Length,
    // A count or the target is outside its bounds.
    Count,
    // A level of the ladder.
    Level(usize),
    // A bus's tier or load.
    Bus(usize),
    // A generator's bus, limits or costs.
    Generator(usize),
    // The demand of a dispatch.
    Demand,
    // A corridor's ends, circuits, length or share.
    Corridor(usize),
    // A row of the line sheet.
    Row(usize),
    // A unit's cost is not finite at one of its limits.
    Cost(usize),
    // An angle or a flow is not finite.
    NotFinite(usize),
    // An end of an edge of the angles' network.
    Edge(usize),
    // A ground of the angles' network.
    Ground(usize),
    // A transformer's rating.
    Rating,
    // The case file is too long.
    FileLength,
    // The case file ends inside or before a record.
    Cut(usize),
    // A record's mark.
    Mark(usize),
    // A record's mode, slack or basis.
    Code(usize),
    // A byte after the last record.
    Trailing(usize),
    // A plan has not as many corridors as the season's first.
    Uneven,
    // The season has taken all the plans that it may.
    SeasonFull,
    // A corridor's impedance spread.
    Spread(usize),
    // A place past the last small network.
    Place,
    // A plan of a mode that does not fill.
    Mode,
    // A place of a filling order that names no corridor, or one again.
    Order(usize),
    // A bus's weight is not 1, in a file to be moved back.
    Weight(usize),
    // Two districts of other modes, ladders or counts of requested levels.
    Districts,
}

impl Refusal {
    #[tactic(auto, unfolding(crate::specs::Number::number_of))]
    pub fn number(self) -> u32
        ensures { result ≡ number_of self }
    {
        match self {
            Refusal::Length => 1,
            Refusal::Count => 2,
            Refusal::Level(_) => 3,
            Refusal::Bus(_) => 4,
            Refusal::Generator(_) | Refusal::Demand => 5,
            Refusal::Corridor(_) => 6,
            Refusal::Row(_) => 7,
            Refusal::Cost(_) => 8,
            Refusal::NotFinite(_) => 9,
            Refusal::Edge(_) | Refusal::Ground(_) => 10,
            Refusal::Rating => 12,
            Refusal::FileLength => 13,
            Refusal::Cut(_) => 14,
            Refusal::Mark(_) => 15,
            Refusal::Code(_) => 16,
            Refusal::Trailing(_) => 17,
            Refusal::Uneven => 19,
            Refusal::SeasonFull => 20,
            Refusal::Spread(_) => 22,
            Refusal::Place => 23,
            Refusal::Mode => 18,
            Refusal::Order(_) => 30,
            Refusal::Weight(_) => 21,
            Refusal::Districts => 24,
        }
    }

    // The lowest faulty index, 0 where the documents name none.
    #[tactic(auto, unfolding(crate::specs::Number::index_of))]
    pub fn index(self) -> usize
        ensures { result ≡ index_of self }
    {
        match self {
            Refusal::Length
            | Refusal::Count
            | Refusal::Demand
            | Refusal::Rating
            | Refusal::FileLength
            | Refusal::Uneven
            | Refusal::SeasonFull
            | Refusal::Place
            | Refusal::Mode
            | Refusal::Districts => 0,
            Refusal::Level(i)
            | Refusal::Bus(i)
            | Refusal::Generator(i)
            | Refusal::Corridor(i)
            | Refusal::Row(i)
            | Refusal::Cost(i)
            | Refusal::NotFinite(i)
            | Refusal::Edge(i)
            | Refusal::Ground(i)
            | Refusal::Cut(i)
            | Refusal::Mark(i)
            | Refusal::Code(i)
            | Refusal::Trailing(i)
            | Refusal::Spread(i)
            | Refusal::Order(i)
            | Refusal::Weight(i) => i,
        }
    }
}

// The documents' number and index.
impl fmt::Display for Refusal {
    ghost use Rattle.std.specs.Prelude.{Some};
    ghost use Rattle.refusal.specs.Number.{text_of};

    ghost output = { λ r. Some (text_of r) };

    fn fmt<W: fmt::Write>(&self, f: &mut fmt::Formatter<W>) -> fmt::Result {
        write!(f, "{} {}", self.number(), self.index())
    }
}

impl Error for Refusal {}
