// 01's number and line of a refusal, and of what a reading or a run came to: "a definition gives this paper's number and values for each of its cases".
#![tactic(auto)]

ghost use Rattle.std.specs.Prelude.{◌≡◌};
ghost use Rattle.ends.specs.Told.{told};
ghost use Rattle.statelist.specs.Told.{told as told_reading};
ghost use Rattle.refusals.specs.Refusals.{of_reading, of_run, GivesReading, GivesRun};

use ends::Outcome;
use limits::RunError;
use statelist::{ReadError, Size};

// 01's number of a refusal, and its line, 0 if it names none. Number 0 is no refusal.
#[derive(Clone, Copy, Debug, PartialEq, Eq)]
pub struct Refusal {
    pub number: u32,
    pub line: usize,
}

impl From<ReadError> for Refusal {
    ghost from_gives = { GivesReading };

    fn from(error: ReadError) -> Refusal {
        let (number, line) = match error {
            ReadError::TooLong => (1, 0),
            ReadError::NoForm { line } => (2, line),
            ReadError::DeclaredTwice { line } => (3, line),
            ReadError::NotDeclared { line } => (4, line),
            ReadError::PairTwice { line } => (5, line),
            ReadError::NoStateRoom { line } => (6, line),
            ReadError::NoTransitionRoom { line } => (7, line),
            ReadError::NoState => (8, 0),
        };
        Refusal { number, line }
    }
}

impl From<RunError> for Refusal {
    ghost from_gives = { GivesRun };

    fn from(error: RunError) -> Refusal {
        Refusal {
            number: error.number(),
            line: 0,
        }
    }
}

// The refusal that a reading came to; number and line are 0 for a graph.
pub fn of_reading(reading: Result<Size, ReadError>) -> Refusal
    ensures { result ≡ of_reading (told_reading reading) }
{
    match reading {
        Ok(_graph) => Refusal { number: 0, line: 0 },
        Err(error) => Refusal::from(error),
    }
}

// The refusal that a run came to; number and line are 0 for an answer.
pub fn of_run(outcome: Result<Outcome, RunError>) -> Refusal
    ensures { result ≡ of_run (told outcome) }
{
    match outcome {
        Ok(_answer) => Refusal { number: 0, line: 0 },
        Err(error) => Refusal::from(error),
    }
}
