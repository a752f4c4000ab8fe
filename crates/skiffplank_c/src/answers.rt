// What a reading and a run came to as the words of an answer, whose numbers are those of include/skiffplank.h. A word that a case does not use is 0.
ghost use Rattle.std.specs.Prelude.{◌≡◌};
ghost use Rattle.statelist.specs.Told.{told as told_reading};
ghost use Rattle.ends.specs.Told.{told};
ghost use Rattle.skiffplank_c.specs.Answers.{read_answer, run_answer, ReadFits, RunFits};

use crate::{ReadAnswer, RunAnswer};
use refusals::Refusal;
use search::{Outcome, RunError};
use statelist::{ReadError, Size};

pub fn read_answer(reading: Result<Size, ReadError>) -> ReadAnswer
    requires { ReadFits (told_reading reading) }
    ensures { result ≡ read_answer (told_reading reading) }
{
    match reading {
        Ok(size) => ReadAnswer {
            states: size.states as u32,
            transitions: size.transitions as u32,
            ..ReadAnswer::default()
        },
        Err(error) => {
            let refusal = Refusal::from(error);
            ReadAnswer {
                refusal: refusal.number,
                line: refusal.line as u32,
                ..ReadAnswer::default()
            }
        }
    }
}

pub fn run_answer(outcome: Result<Outcome, RunError>) -> RunAnswer
    requires { RunFits (told outcome) }
    ensures { result ≡ run_answer (told outcome) }
{
    match outcome {
        Ok(Outcome::Cycle { stem, loop_, used }) => RunAnswer {
            answer: 1,
            stem: stem as u32,
            loop_: loop_ as u32,
            used: used as u64,
            ..RunAnswer::default()
        },
        Ok(Outcome::None { used }) => RunAnswer {
            answer: 2,
            used: used as u64,
            ..RunAnswer::default()
        },
        Ok(Outcome::Undecided { used }) => RunAnswer {
            used: used as u64,
            ..RunAnswer::default()
        },
        Err(error) => RunAnswer {
            refusal: error.number(),
            ..RunAnswer::default()
        },
    }
}
