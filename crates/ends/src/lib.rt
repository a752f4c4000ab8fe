// What a run came to, and the lasso that a run shows when it answers "cycle".
#![tactic(auto)]

ghost use Rattle.std.specs.Prelude.{◌≡◌, length};
ghost use Rattle.moves.specs.Room.{stretch_at};
ghost use Rattle.ends.specs.Lasso.{Stacked, place_down, lasso_in, found_in};

use moves::{own_at, stretch_at};

// The answer of a run, with the turns used.
#[derive(Clone, Copy, Debug, PartialEq, Eq)]
pub enum Outcome {
    // with the lengths of stem and loop
    Cycle {
        stem: usize,
        loop_: usize,
        used: usize,
    },
    None {
        used: usize,
    },
    Undecided {
        used: usize,
    },
}

// Worker p's stacks become the lasso on taking x: stem and then loop go to the front of the lasso room. Room and n: as for `own_at`.
pub fn show(room: &[u16], lasso: &mut [u16], n: usize, p: usize, x: u16, used: usize) -> Outcome
    requires { Stacked n (stretch_at n p) room.now lasso.old }
    ensures lasso { lasso.new ≡ lasso_in n (stretch_at n p) room.now lasso.old }
    ensures found { result ≡ found_in n (stretch_at n p) x used room.now }
{
    let own = own_at(room, n, p);
    let outer = usize::from(own.outer);
    let inner = usize::from(own.inner) - 1;
    let a = stretch_at(n, p);
    let o = a + 2 * n;
    let i = a + 3 * n + 1;
    copy(&mut lasso[..outer], &room[o..o + outer]);
    copy(&mut lasso[outer..outer + inner], &room[i..i + inner]);
    let stem = place_down(&room[o..o + outer], x);
    Outcome::Cycle {
        stem,
        loop_: outer + inner - stem,
        used,
    }
}

// Not `copy_from_slice`, for which the library for C would need memmove from outside. By index, since of `iter_mut` no more than the length is known.
#[tactic(auto, using(crate::proofs::Copied::copied_more, crate::proofs::Copied::copied_all))]
fn copy(to: &mut [u16], from: &[u16])
    requires { length to.old ≡ length from.now }
    ensures { to.new ≡ from.now }
{
    for i in 0..from.len() {
        to[i] = from[i];
    }
}

// The place of x, looking down from the last word; 0 if it is not there.
fn place_down(words: &[u16], x: u16) -> usize
    ensures { result ≡ place_down (length words.now) x words.now }
{
    words.iter().rposition(|&word| word == x).unwrap_or(0)
}
