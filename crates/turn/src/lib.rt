// One turn on the room: worker p's stretch is cut out of it and into its parts, and the move that the rules give is made on them and on the shared colours.
#![tactic(auto)]

mod order;
mod reads;
mod searches;
mod stretch;

ghost use Rattle.std.specs.Prelude.{ℕ, ◌≡◌, ◌≤◌, length};
ghost use Rattle.moves.specs.Machine.{Machine};
ghost use Rattle.moves.specs.Room.{stretch};
ghost use Rattle.turn.specs.Lent.{LentOf, SomeLent, LentAfter, IsSpan};
ghost use Rattle.turn.specs.Turn.{Poised, Turns, WordsTurned};

use crate::stretch::Stretch;
use graphs::Graph;
use moves::{Move, own_in};

// 01: "A turn makes one move". The room begins with the form of a machine; at exit it is the form of the machine after worker p's move. That move is
// the one that the words give (`chosen`), and the room has what making it writes (`made_words`).
pub fn turn(room: &mut [u16], graph: &Graph<'_>, p: usize) -> Move
    requires { Poised graph.now.offsets.now graph.now.targets.now graph.now.flags.now p room.old }
    ensures turn { Turns graph.now.offsets.now graph.now.targets.now graph.now.flags.now p room.old room.new result }
    ensures words { WordsTurned graph.now.offsets.now graph.now.targets.now graph.now.flags.now p room.old room.new result }
{
    let n = graph.states();
    let size = 5 * n + 4;
    let (blue, rest) = room.split_at_mut(n);
    let (red, stretches) = rest.split_at_mut(n);
    let (_, later) = stretches.split_at_mut(p * size);
    let (own, _) = later.split_at_mut(size);
    turn_in(own, blue, red, graph, p)
}

// The same on worker p's stretch and the shared colours.
#[tactic(auto, using(crate::proofs::Cut::few_states))]
fn turn_in(own: &mut [u16], blue: &mut [u16], red: &mut [u16], graph: &Graph<'_>, p: usize) -> Move
    requires given { SomeLent graph.now p blue.old red.old (IsSpan own.old) }
    requires own { length own.old ≡ stretch (length graph.now.flags.now) }
    requires blue { length blue.old ≡ length graph.now.flags.now }
    requires red { length red.old ≡ length graph.now.flags.now }
    ensures { (P : ℕ) (m : Machine) → LentOf graph.now P p m blue.old red.old (IsSpan own.old)
        → LentAfter graph.now p m blue.new red.new (IsSpan own.new) result }
{
    let n = graph.states();
    let (cyan, rest) = own.split_at_mut(n);
    let (gathered, rest) = rest.split_at_mut(n);
    let (outer, rest) = rest.split_at_mut(n);
    let (inner, rest) = rest.split_at_mut(n);
    let (taken, last) = rest.split_at_mut(n);
    let at = own_in(last, 0);
    let mut stretch = Stretch {
        cyan,
        gathered,
        outer,
        inner,
        taken,
        place: at.place,
        outer_depth: at.outer,
        inner_depth: at.inner,
    };
    let made = stretch.turn(blue, red, graph, p);
    let [kind, seed] = stretch.place.words();
    last[0] = kind;
    last[1] = seed;
    last[2] = stretch.outer_depth;
    last[3] = stretch.inner_depth;
    made
}
