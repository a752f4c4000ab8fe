// One turn of a run: a worker's move, counted, and what the run has come to by it.
#![tactic(auto)]

ghost use Rattle.std.specs.Prelude.{◌≡◌, ◌≤◌, length};
ghost use Rattle.moves.specs.Room.{room_size};
ghost use Rattle.steps.specs.Verdict.{all_done_in, verdict_in};
ghost use Rattle.steps.specs.Steps.{Due, Steps};

use graphs::Graph;
use moves::{Move, Tally, stretch_at};
use turn::turn;

// What a run has come to.
#[derive(Clone, Copy, Debug, PartialEq, Eq)]
pub enum Verdict {
    // every worker is done
    Quiet,
    // the worker whose turn it was took this state, which closes a lasso
    Found { state: u16 },
}

// Whether every worker is done: 4 is the kind word of one that is (docs/ROOM.md). A loop, since with `(0..workers).all(..)`, whose closure calls `stretch_at`, the
// clause was not proved. Room and n are two arguments, as for `own_at`.
#[tactic(auto, unfolding(crate::specs::Verdict::all_done_in, graphs::specs::Lists::every))]
fn all_done(room: &[u16], n: usize, workers: usize) -> bool
    requires { room_size n workers ≤ length room.now }
    ensures { result ≡ all_done_in n workers room.now }
{
    for q in 0..workers {
        if room[stretch_at(n, q) + 5 * n] != 4 {
            return false;
        }
    }
    true
}

// Read from the room after the move; room and n as for `own_at`.
fn verdict_after(room: &[u16], n: usize, workers: usize, made: Move) -> Option<Verdict>
    requires { room_size n workers ≤ length room.now }
    ensures { result ≡ verdict_in n workers made room.now }
{
    match made {
        Move::Hit(_, state) => Some(Verdict::Found { state }),
        _ => all_done(room, n, workers).then_some(Verdict::Quiet),
    }
}

// Makes worker p's move, counts it, and tells what the run has come to by it, if anything.
pub fn step(
    room: &mut [u16],
    tally: &mut Tally,
    graph: &Graph<'_>,
    workers: usize,
    p: usize,
) -> Option<Verdict>
    requires { Due graph.now.offsets.now graph.now.targets.now graph.now.flags.now workers p
        room.old tally.old }
    ensures { Steps graph.now.offsets.now graph.now.targets.now graph.now.flags.now workers p
        room.old tally.old result room.new tally.new }
{
    let made = turn(room, graph, p);
    tally.raise(made);
    verdict_after(room, graph.states(), workers, made)
}
