// Runs the method of `Place` for each move on each place, and `Tally::raised` on each move, and prints what they give.
#![tactic(auto)]

use moves::{Move, Place, Tally};

const PLACES: [Place; 5] = [
    Place::Fresh,
    Place::Outer,
    Place::Inner(4),
    Place::Waiting(4),
    Place::Done,
];

const MOVES: [(&str, Move); 12] = [
    ("start", Move::Start),
    ("skip", Move::Skip(4)),
    ("enter", Move::Enter(4, 7)),
    ("leave", Move::Leave(4)),
    ("seed", Move::Seed(4)),
    ("hit", Move::Hit(4, 7)),
    ("pass", Move::Pass(4)),
    ("join", Move::Join(4, 7)),
    ("back", Move::Back(4, 7)),
    ("paint", Move::Paint(4)),
    ("wait", Move::Wait),
    ("rest", Move::Rest),
];

// A write that fails is let go: it doesn't end the program with an error.
fn main(rt: HostRuntime) {
    println!(rt; "move 1").ok();
    places(&rt, Place::started);
    println!(rt; "move 3, not accepting").ok();
    places(&rt, |place| place.left(false));
    places(&rt, |place| place.left(true));
    println!(rt; "move 3, accepting").ok();
    places(&rt, |place| place.seeded(7));
    println!(rt; "move 5").ok();
    places(&rt, |place| place.backed(false));
    places(&rt, |place| place.backed(true));
    println!(rt; "move 6").ok();
    places(&rt, |place| place.painted(false));
    places(&rt, |place| place.painted(true));
    println!(rt; "tally").ok();
    tallies(&rt);
}

// Where the move takes each place.
fn places<F: Fn(Place) -> Place>(rt: &impl Print, made: F)
    requires { F.IsAlwaysCallable made }
{
    for place in PLACES {
        match made(place) {
            Place::Fresh => print!(rt; "\tfresh"),
            Place::Outer => print!(rt; "\touter"),
            Place::Inner(s) => print!(rt; "\tinner {s}"),
            Place::Waiting(s) => print!(rt; "\twaiting {s}"),
            Place::Done => print!(rt; "\tdone"),
        }
        .ok();
    }
    println!(rt; "").ok();
}

// A tally of 1 outer entry, 2 inner entries, 3 waits and 4 moves, after each move.
fn tallies(rt: &impl Print) {
    let before = Tally {
        outer: 1,
        inner: 2,
        waits: 3,
        moves: 4,
    };
    for (name, made) in MOVES {
        let t = before.raised(made);
        println!(rt; "{}{}{}{}\t{name}", t.outer, t.inner, t.waits, t.moves).ok();
    }
}
