// Answers as the fields of a struct.
ghost use Rattle.std.specs.Prelude.{◌≡◌};
ghost use Rattle.casefile_defs.specs.Tables as tables;
ghost use Rattle.refusal.specs.Reply as replies;
ghost use Rattle.exports.specs.Said.{angles_said, ended_figure, ended_number, reading_said, answer_said, placement_said};

use crate::{AnglesSaid, AnswerSaid, PlacementSaid, ReadingSaid};
use angles_defs::{Ended, Solution};
use casefile_defs::CaseRead;
use refusal::Refusal;

#[tactic(auto, unfolding(crate::specs::Said::ended_number))]
fn ended_number(ended: Ended) -> u32
    ensures { result ≡ ended_number ended }
{
    match ended {
        Ended::Settled(_) => 1,
        Ended::NoDescent(_) => 2,
        Ended::StepsSpent(_) => 3,
    }
}

#[tactic(auto, unfolding(crate::specs::Said::ended_figure))]
fn ended_figure(ended: Ended) -> f64
    ensures { result ≡ ended_figure ended }
{
    match ended {
        Ended::Settled(x) | Ended::NoDescent(x) | Ended::StepsSpent(x) => x,
    }
}

impl From<Result<Solution, Refusal>> for AnglesSaid {
    ghost from_gives = { λ a said. said ≡ angles_said (replies.reply_of a) };

    fn from(answer: Result<Solution, Refusal>) -> AnglesSaid {
        match answer {
            Ok(s) => AnglesSaid {
                refusal: 0,
                index: 0,
                steps: s.steps,
                ended: ended_number(s.ended),
                figure: ended_figure(s.ended),
            },
            Err(f) => AnglesSaid {
                refusal: f.number(),
                index: f.index(),
                steps: 0,
                ended: 0,
                figure: 0.0,
            },
        }
    }
}

impl From<CaseRead> for ReadingSaid {
    ghost from_gives = { λ r said. said ≡ reading_said (tables.reply_of r.reading) r.looks };

    fn from(read: CaseRead) -> ReadingSaid {
        match read.reading {
            Ok(h) => ReadingSaid {
                refusal: 0,
                index: 0,
                mode: h.mode.number(),
                target: h.target,
                buses: h.buses,
                corridors: h.corridors,
                generators: h.generators,
                above: h.above,
                requested: h.requested,
                looks: read.looks,
            },
            Err(f) => ReadingSaid {
                refusal: f.number(),
                index: f.index(),
                mode: 0,
                target: 0,
                buses: 0,
                corridors: 0,
                generators: 0,
                above: 0,
                requested: 0,
                looks: read.looks,
            },
        }
    }
}

impl From<Result<(), Refusal>> for AnswerSaid {
    ghost from_gives = { λ a said. said ≡ answer_said (replies.reply_of a) };

    fn from(answer: Result<(), Refusal>) -> AnswerSaid {
        match answer {
            Ok(()) => AnswerSaid {
                refusal: 0,
                index: 0,
            },
            Err(f) => AnswerSaid {
                refusal: f.number(),
                index: f.index(),
            },
        }
    }
}

impl From<Result<usize, Refusal>> for PlacementSaid {
    ghost from_gives = { λ a said. said ≡ placement_said (replies.reply_of a) };

    fn from(answer: Result<usize, Refusal>) -> PlacementSaid {
        match answer {
            Ok(count) => PlacementSaid {
                refusal: 0,
                index: 0,
                count,
            },
            Err(f) => PlacementSaid {
                refusal: f.number(),
                index: f.index(),
                count: 0,
            },
        }
    }
}
