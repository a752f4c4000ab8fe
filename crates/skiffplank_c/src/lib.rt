// The library for C and Rust to link: the reader and the two runs. Each list is an argument of its own, which passes as a
// pointer and a length. include/skiffplank.h declares them for C.
#![tactic(auto)]

mod answers;

ghost use Rattle.std.specs.Prelude.{◌≡◌, length};
ghost use Rattle.text.specs.Lists.{outcome as read·outcome};
ghost use Rattle.search.specs.Outcomes.{outcome, outcome_to_end};
ghost use Rattle.skiffplank_c.specs.Answers.{read_call_of, read_call, run_call_of, run_call};

use answers::{read_answer, run_answer};
use moves::Tally;

// What `skiffplank_read` says: refusal 0 is a graph, with its numbers of states and transitions; any other is 01's number, with its line.
#[repr(C)]
#[derive(Clone, Copy, Debug, Default, PartialEq, Eq)]
pub struct ReadAnswer {
    pub refusal: u32,
    pub line: u32,
    pub states: u32,
    pub transitions: u32,
}

// What the runs say: refusal 0 is a run, whose answer is 0 for "undecided", 1 for "cycle" (with the lengths of stem and loop) and 2 for "none", and the
// turns that it used; any other refusal is 01's number.
#[repr(C)]
#[derive(Clone, Copy, Debug, Default, PartialEq, Eq)]
pub struct RunAnswer {
    pub refusal: u32,
    pub answer: u32,
    pub stem: u32,
    pub loop_: u32,
    pub used: u64,
}

// Reads a text into four lists of any lengths, as `statelist::read`.
#[unsafe(no_mangle)]
pub extern "C" fn skiffplank_read(
    offsets: &mut [u16],
    targets: &mut [u16],
    flags: &mut [u16],
    places: &mut [u32],
    text: &[u8],
) -> ReadAnswer
    ensures { read_call_of result offsets.new targets.new flags.new places.new
        ≡ read_call (read·outcome (length offsets.old) (length targets.old) (length flags.old)
        (length places.old) text.now) }
{
    read_answer(statelist::read(offsets, targets, flags, places, text))
}

// Runs over a turn list, from the start, as `search::run`.
#[unsafe(no_mangle)]
pub extern "C" fn skiffplank_run(
    room: &mut [u16],
    lasso: &mut [u16],
    tally: &mut Tally,
    turns: &[u8],
    offsets: &[u16],
    targets: &[u16],
    flags: &[u16],
    workers: u64,
) -> RunAnswer
    ensures { run_call_of result room.new lasso.new tally.new
        ≡ run_call (outcome turns.now offsets.now targets.now flags.now workers
        room.old lasso.old tally.old) }
{
    let outcome = search::run(
        room,
        lasso,
        tally,
        turns,
        offsets,
        targets,
        flags,
        workers as usize,
    );
    run_answer(outcome)
}

// Runs to the end, as `search::run_to_end`: 0 workers are the usual two.
#[unsafe(no_mangle)]
pub extern "C" fn skiffplank_run_to_end(
    room: &mut [u16],
    lasso: &mut [u16],
    tally: &mut Tally,
    offsets: &[u16],
    targets: &[u16],
    flags: &[u16],
    workers: u64,
) -> RunAnswer
    ensures { run_call_of result room.new lasso.new tally.new
        ≡ run_call (outcome_to_end offsets.now targets.now flags.now workers
        room.old lasso.old tally.old) }
{
    let outcome = search::run_to_end(
        room,
        lasso,
        tally,
        offsets,
        targets,
        flags,
        workers as usize,
    );
    run_answer(outcome)
}
