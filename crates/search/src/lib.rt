// The two runs of 01 over lent words: refusals 9 to 13, the moves by turns, and the lasso.
#![tactic(auto)]

ghost use Rattle.std.specs.Prelude.{◌≡◌, List};
ghost use Rattle.moves.specs.Tally.{zeroes};
ghost use Rattle.ends.specs.Told.{told};
ghost use Rattle.search.specs.Outcomes.{lent, outcome, outcome_to_end, Settles};
ghost use Rattle.search.specs.Plans.{outcome_by};

pub use ends::Outcome;
use ends::show;
pub use limits::RunError;
use limits::{Plan, check, room_size, usual};
use moves::Tally;
use steps::{Verdict, step};

// A run by a plan of turns, from the start. The room and the lasso room may be of any lengths and hold anything. Here and in the runs below each list is
// an argument of its own: 01, "Graph, rooms and lasso are lent slices of u16", and so C calls two of them.
fn over(
    room: &mut [u16],
    lasso: &mut [u16],
    tally: &mut Tally,
    plan: Plan<'_>,
    offsets: &[u16],
    targets: &[u16],
    flags: &[u16],
    workers: usize,
) -> Result<Outcome, RunError>
    ensures { lent result room.new lasso.new tally.new
        ≡ outcome_by plan.entry offsets.now targets.now flags.now workers
        room.old lasso.old tally.old }
{
    let graph = check(
        room.len(),
        lasso.len(),
        plan,
        offsets,
        targets,
        flags,
        workers,
    )?;
    let n = graph.states();
    room[..room_size(n, workers)].fill(0);
    *tally = Tally::default();
    let mut used = 0;
    // no `for`: the rounds have no last turn, and `used` is told
    while let Some(p) = plan.next(workers, used) {
        let verdict = step(room, tally, &graph, workers, p);
        used += 1;
        match verdict {
            Some(Verdict::Found { state }) => return Ok(show(room, lasso, n, p, state, used)),
            Some(Verdict::Quiet) => return Ok(Outcome::None { used }),
            None => {}
        }
    }
    Ok(Outcome::Undecided { used })
}

// A run over a turn list. This and `run_to_end` are two names, since C calls both.
#[tactic(auto, unfolding(crate::specs::Outcomes::outcome))]
pub fn run(
    room: &mut [u16],
    lasso: &mut [u16],
    tally: &mut Tally,
    turns: &[u8],
    offsets: &[u16],
    targets: &[u16],
    flags: &[u16],
    workers: usize,
) -> Result<Outcome, RunError>
    ensures { lent result room.new lasso.new tally.new
        ≡ outcome turns.now offsets.now targets.now flags.now workers
        room.old lasso.old tally.old }
{
    over(
        room,
        lasso,
        tally,
        Plan::Turns(turns),
        offsets,
        targets,
        flags,
        workers,
    )
}

// The run to the end: turns 0, 1, .., P − 1 repeated until there is an answer. 0 workers are the usual two.
#[tactic(auto, unfolding(crate::specs::Outcomes::outcome_to_end))]
pub fn run_to_end(
    room: &mut [u16],
    lasso: &mut [u16],
    tally: &mut Tally,
    offsets: &[u16],
    targets: &[u16],
    flags: &[u16],
    workers: usize,
) -> Result<Outcome, RunError>
    ensures { (lent result room.new lasso.new tally.new
        ≡ outcome_to_end offsets.now targets.now flags.now workers
        room.old lasso.old tally.old) × Settles (told result) }
{
    over(
        room,
        lasso,
        tally,
        Plan::Rounds,
        offsets,
        targets,
        flags,
        usual(workers),
    )
}

// What a run came to, with its tally.
#[derive(Clone, Copy, Debug, PartialEq, Eq)]
pub struct Counted {
    pub outcome: Result<Outcome, RunError>,
    pub tally: Tally,
}

// The same two runs with a tally of their own, which starts at 0 and is handed back. Two names, as docs/STATEMENTS.md
// has them: a call of `run`, and one of `run_to_end`.
pub fn counted_run(
    room: &mut [u16],
    lasso: &mut [u16],
    turns: &[u8],
    offsets: &[u16],
    targets: &[u16],
    flags: &[u16],
    workers: usize,
) -> Counted
    ensures { lent result.outcome room.new lasso.new result.tally
        ≡ outcome turns.now offsets.now targets.now flags.now workers
        room.old lasso.old zeroes }
{
    let mut tally = Tally::default();
    let outcome = run(
        room, lasso, &mut tally, turns, offsets, targets, flags, workers,
    );
    Counted { outcome, tally }
}

pub fn counted_run_to_end(
    room: &mut [u16],
    lasso: &mut [u16],
    offsets: &[u16],
    targets: &[u16],
    flags: &[u16],
    workers: usize,
) -> Counted
    ensures { (lent result.outcome room.new lasso.new result.tally
        ≡ outcome_to_end offsets.now targets.now flags.now workers
        room.old lasso.old zeroes) × Settles (told result.outcome) }
{
    let mut tally = Tally::default();
    let outcome = run_to_end(room, lasso, &mut tally, offsets, targets, flags, workers);
    Counted { outcome, tally }
}
