// The move that the rules give a worker, by the search that it is in, made on its stretch and the shared colours as it is chosen.
ghost use Rattle.std.specs.Prelude.{◌≡◌};

use crate::stretch::Stretch;
use graphs::Graph;
use moves::{Move, Place};

impl Stretch<'_, '_, '_, '_, '_> {
    ghost use Rattle.std.specs.Prelude.{ℕ, ◌≡◌, List, length};
    ghost use Rattle.moves.specs.declared.Place.TheVariants.{Outer, Inner, Waiting};
    ghost use Rattle.moves.specs.Machine.{Machine};
    ghost use Rattle.turn.specs.Holds.{Holds, SameParts};
    ghost use Rattle.turn.specs.Lent.{LentOf, SomeLent, LentAfter};

    // 01: "A turn makes one move."
    pub fn turn(&mut self, blue: &mut [u16], red: &mut [u16], graph: &Graph<'_>, p: usize) -> Move
        requires given { SomeLent graph.now p blue.old red.old (Holds self.old) }
        requires states { length graph.now.flags.now ≡ length self.old.cyan.now }
        requires blue { length blue.old ≡ length self.old.cyan.now }
        requires red { length red.old ≡ length self.old.cyan.now }
        ensures turn { (P : ℕ) (m : Machine) → LentOf graph.now P p m blue.old red.old (Holds self.old)
            → LentAfter graph.now p m blue.new red.new (Holds self.new) result }
        ensures same { SameParts self.old self.new }
    {
        match self.place {
            Place::Fresh => {
                self.start();
                Move::Start
            }
            Place::Outer => self.outer_turn(blue, graph, p),
            Place::Inner(z) => self.inner_turn(red, graph, p, z),
            Place::Waiting(z) => self.waiting_turn(red, graph, z),
            Place::Done => Move::Rest,
        }
    }

    // Moves 2 and 3.
    fn outer_turn(&mut self, blue: &mut [u16], graph: &Graph<'_>, p: usize) -> Move
        requires given { (red : List ℕ) × SomeLent graph.now p blue.old red (Holds self.old) }
        requires place { self.old.place ≡ Outer }
        requires states { length graph.now.flags.now ≡ length self.old.cyan.now }
        requires blue { length blue.old ≡ length self.old.cyan.now }
        ensures turn { (P : ℕ) (m : Machine) (red : List ℕ) → LentOf graph.now P p m blue.old red (Holds self.old)
            → LentAfter graph.now p m blue.new red (Holds self.new) result }
        ensures same { SameParts self.old self.new }
    {
        let s = self.outer_top();
        match self.next(graph, p, s) {
            Some(x) if self.is_cyan_or_in(blue, x) => {
                self.take(s);
                Move::Skip(s)
            }
            Some(x) => {
                self.enter(s, x);
                Move::Enter(s, x)
            }
            None => {
                let top = usize::from(s);
                blue[top] = 1;
                if graph.is_marked(top) {
                    self.seed(s);
                    Move::Seed(s)
                } else {
                    self.leave(s);
                    Move::Leave(s)
                }
            }
        }
    }

    // Moves 4 and 5.
    fn inner_turn(&mut self, red: &[u16], graph: &Graph<'_>, p: usize, z: u16) -> Move
        requires given { (blue : List ℕ) × SomeLent graph.now p blue red.now (Holds self.old) }
        requires place { self.old.place ≡ Inner z }
        requires states { length graph.now.flags.now ≡ length self.old.cyan.now }
        requires red { length red.now ≡ length self.old.cyan.now }
        ensures turn { (P : ℕ) (m : Machine) (blue : List ℕ) → LentOf graph.now P p m blue red.now (Holds self.old)
            → LentAfter graph.now p m blue red.now (Holds self.new) result }
        ensures same { SameParts self.old self.new }
    {
        let s = self.inner_top();
        match self.next(graph, p, s) {
            Some(x) if self.is_cyan(x) => {
                self.take(s);
                Move::Hit(s, x)
            }
            Some(x) if self.is_gathered_or_in(red, x) => {
                self.take(s);
                Move::Pass(s)
            }
            Some(x) => {
                self.join(s, x);
                Move::Join(s, x)
            }
            None => {
                self.back(s);
                Move::Back(z, s)
            }
        }
    }

    // Move 6.
    fn waiting_turn(&mut self, red: &mut [u16], graph: &Graph<'_>, z: u16) -> Move
        requires given { (p : ℕ) × (blue : List ℕ) × SomeLent graph.now p blue red.old (Holds self.old) }
        requires place { self.old.place ≡ Waiting z }
        requires states { length graph.now.flags.now ≡ length self.old.cyan.now }
        requires red { length red.old ≡ length self.old.cyan.now }
        ensures turn { (P p : ℕ) (m : Machine) (blue : List ℕ) → LentOf graph.now P p m blue red.old (Holds self.old)
            → LentAfter graph.now p m blue red.new (Holds self.new) result }
        ensures same { SameParts self.old self.new }
    {
        if !self.others_are_red(graph, red, z) {
            return Move::Wait;
        }
        self.dye(red);
        self.paint(z);
        Move::Paint(z)
    }
}
