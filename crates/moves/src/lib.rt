// A worker's place, the move that a turn makes, and the tally of a run: the types that the machine of 01 and the search's code share. The place
// has a method for each move that changes it, which takes the place and hands it back; the tally is raised by the move.
#![tactic(auto)]

mod own;

ghost use Rattle.std.specs.Prelude.{◌≡◌, get_or};
ghost use Rattle.moves.specs.Place.{started, left, seeded, backed, painted};
ghost use Rattle.moves.specs.Room.{words_of, place_of};
ghost use Rattle.moves.specs.Tally.{raised, Low};

pub use own::{Own, own_at, own_in, stretch_at};

// 01: "not started, outer search, inner search with its seed, waiting with its seed, or done"
#[derive(Clone, Copy, Debug, PartialEq, Eq)]
pub enum Place {
    Fresh,
    Outer,
    Inner(u16),
    Waiting(u16),
    Done,
}

impl Place {
    // Move 1: the initial state is the outer stack's only entry.
    pub fn started(self) -> Place
        ensures { result ≡ started self }
    {
        match self {
            Place::Fresh => Place::Outer,
            place => place,
        }
    }

    // Move 3, not accepting: the top leaves the outer stack, and `last` says that the stack is empty then.
    pub fn left(self, last: bool) -> Place
        ensures { result ≡ left self last }
    {
        match self {
            Place::Outer if last => Place::Done,
            place => place,
        }
    }

    // Move 3, accepting: the top becomes the seed.
    pub fn seeded(self, top: u16) -> Place
        ensures { result ≡ seeded self top }
    {
        match self {
            Place::Outer => Place::Inner(top),
            place => place,
        }
    }

    // Move 5: the top leaves the inner stack, and `last` says that the stack is empty then.
    pub fn backed(self, last: bool) -> Place
        ensures { result ≡ backed self last }
    {
        match self {
            Place::Inner(seed) if last => Place::Waiting(seed),
            place => place,
        }
    }

    // Move 6: the seed leaves the outer stack, and `last` says that the stack is empty then.
    pub fn painted(self, last: bool) -> Place
        ensures { result ≡ painted self last }
    {
        match self {
            Place::Waiting(_) if last => Place::Done,
            Place::Waiting(_) => Place::Outer,
            place => place,
        }
    }

    // The two words of a place in the room: its kind, and the seed or 0. Not by `From`: this is the room's form of a place (docs/ROOM.md), one of many.
    pub fn words(self) -> [u16; 2]
        ensures { result ≡ words_of self }
    {
        match self {
            Place::Fresh => [0, 0],
            Place::Outer => [1, 0],
            Place::Inner(seed) => [2, seed],
            Place::Waiting(seed) => [3, seed],
            Place::Done => [4, 0],
        }
    }

    // The place with these two words.
    pub fn from_words(words: [u16; 2]) -> Place
        ensures { result ≡ place_of (get_or words 0 0) (get_or words 1 0) }
    {
        match words {
            [0, _] => Place::Fresh,
            [1, _] => Place::Outer,
            [2, seed] => Place::Inner(seed),
            [3, seed] => Place::Waiting(seed),
            _ => Place::Done,
        }
    }
}

// The move that a turn makes, with the states that it is about: s is the top of the stack, x the successor that is taken from it.
#[derive(Clone, Copy, Debug, PartialEq, Eq)]
pub enum Move {
    // 1
    Start,
    // 2: x is cyan or blue; x becomes cyan and goes on the stack
    Skip(u16),
    Enter(u16, u16),
    // 3: s leaves the outer stack; s becomes the seed
    Leave(u16),
    Seed(u16),
    // 4: x is cyan, and the answer is "cycle"; x is in R or red; x joins R and the inner stack
    Hit(u16, u16),
    Pass(u16),
    Join(u16, u16),
    // 5: under the seed z, s leaves the inner stack
    Back(u16, u16),
    // 6: all of the seed's R becomes red; or a wait
    Paint(u16),
    Wait,
    // 7
    Rest,
}

// 01: "outer entries, inner entries, waits, and moves that change something". Its layout is that of C: `skiffplank_c` lends it on.
#[repr(C)]
#[derive(Clone, Copy, Debug, Default, PartialEq, Eq)]
pub struct Tally {
    pub outer: u64,
    pub inner: u64,
    pub waits: u64,
    pub moves: u64,
}

impl Tally {
    // The tally after the move. A count stands for turns that were made, so it stays below 2^64.
    pub fn raised(self, made: Move) -> Tally
        requires { Low self }
        ensures { result ≡ raised self made }
    {
        match made {
            Move::Start | Move::Enter(_, _) => Tally {
                outer: self.outer + 1,
                moves: self.moves + 1,
                ..self
            },
            Move::Seed(_) | Move::Join(_, _) => Tally {
                inner: self.inner + 1,
                moves: self.moves + 1,
                ..self
            },
            Move::Skip(_)
            | Move::Leave(_)
            | Move::Hit(_, _)
            | Move::Pass(_)
            | Move::Back(_, _)
            | Move::Paint(_) => Tally {
                moves: self.moves + 1,
                ..self
            },
            Move::Wait => Tally {
                waits: self.waits + 1,
                ..self
            },
            Move::Rest => self,
        }
    }

    // Stores the tally after the move in its place.
    pub fn raise(&mut self, made: Move)
        requires { Low self.old }
        ensures { self.new ≡ raised self.old made }
    {
        *self = self.raised(made);
    }
}
