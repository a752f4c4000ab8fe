// Where a worker's stretch starts in the room, and its last four words (docs/ROOM.md): its place, and how deep its two stacks are.
ghost use Rattle.std.specs.Prelude.{◌≡◌, ◌+◌, ◌<◌, ◌≤◌, ◌^◌, length};
ghost use Rattle.moves.specs.Room.{stretch, stretch_at};
ghost use Rattle.moves.specs.Own.{own_in, own_at};

use crate::Place;

// A worker's place, beside the depths of its two stacks.
#[derive(Clone, Copy, Debug, PartialEq, Eq)]
pub struct Own {
    pub place: Place,
    pub outer: u16,
    pub inner: u16,
}

// Reads the four words from `at` on.
pub fn own_in(room: &[u16], at: usize) -> Own
    requires { at + 4 ≤ length room.now }
    ensures { result ≡ own_in room.now at }
{
    Own {
        place: Place::from_words([room[at], room[at + 1]]),
        outer: room[at + 2],
        inner: room[at + 3],
    }
}

// The start of worker q's stretch in the room of a machine of n states.
pub fn stretch_at(n: usize, q: usize) -> usize
    requires { (stretch n < 2 ^ 64) × (stretch_at n q < 2 ^ 64) }
    ensures { result ≡ stretch_at n q }
{
    2 * n + q * (5 * n + 4)
}

// Reads worker q's four words. The room and n are two arguments: the room is lent on changed and unchanged, and who lends it has n from the graph.
pub fn own_at(room: &[u16], n: usize, q: usize) -> Own
    requires { stretch_at n q + stretch n ≤ length room.now }
    ensures { result ≡ own_at room.now n q }
{
    own_in(room, stretch_at(n, q) + 5 * n)
}
