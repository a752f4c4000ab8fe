// A worker's stretch of the room (docs/ROOM.md), cut into its parts, and what each move stores in it. A move is said of the words, whatever the parts hold
// (the clauses `stores`), and of the worker: whichever worker the parts hold before it, after it they hold what the move makes of that worker (the clauses
// `worker`). The shared colours are not in a stretch.
ghost use Rattle.std.specs.Prelude.{◌≡◌, ◌≤◌, length};

use moves::Place;

// The parts are lent to be changed, so that it is not `Clone`, each with a word for every state. The last four words of the stretch are values here, and whoever cuts the stretch stores them back.
#[derive(Drop)]
pub struct Stretch<'c, 'g, 'o, 'i, 't> {
    pub cyan: &'c mut [u16],
    pub gathered: &'g mut [u16],
    pub outer: &'o mut [u16],
    pub inner: &'i mut [u16],
    pub taken: &'t mut [u16],
    pub place: Place,
    pub outer_depth: u16,
    pub inner_depth: u16,
    pub ghost few: { length cyan.now ≤ 4096 },
    pub ghost even_gathered: { length gathered.now ≡ length cyan.now },
    pub ghost even_outer: { length outer.now ≡ length cyan.now },
    pub ghost even_inner: { length inner.now ≡ length cyan.now },
    pub ghost even_taken: { length taken.now ≡ length cyan.now },
}

impl Stretch<'_, '_, '_, '_, '_> {
    ghost use Rattle.std.specs.Prelude.{ℕ, ◌≡◌, ◌<◌, ◌≤◌, Bool, false, List, [], ◌∷◌, length, get_or};
    ghost use Rattle.moves.specs.declared.Place.TheVariants.{Fresh, Outer, Inner, Waiting};
    ghost use Rattle.moves.specs.Place.{left, painted};
    ghost use Rattle.moves.specs.Machine.{Worker, empty};
    ghost use Rattle.moves.specs.Changes.{is_empty, starts, takes, enters, pops, seeds, joins, backs};
    ghost use Rattle.theory.specs.Invariant.{Calm};
    ghost use Rattle.turn.specs.Holds.{Holds, SameParts};
    ghost use Rattle.turn.specs.Stores.{own_in_parts, words, start_words, take_words, enter_words, pop_words, leave_words, seed_words, join_words, back_words, paint_words};

    // Move 1.
    #[tactic(auto, using(moves::proofs::Stores::stores))]
    pub fn start(&mut self)
        requires some { 0 < length self.old.cyan.now }
        ensures worker { (n : ℕ) (w : Worker) → Holds self.old n w → w.place ≡ Fresh → w.outer ≡ []
            → Holds self.new n (starts w) }
        ensures stores { words self.new ≡ start_words (length self.old.cyan.now) (own_in_parts self.old) (words self.old) }
        ensures same { SameParts self.old self.new }
    {
        self.cyan[0] = 1;
        self.outer[0] = 0;
        self.outer_depth = 1;
        self.place = self.place.started();
    }

    // Moves 2 and 4: a successor of s is taken.
    #[tactic(auto, using(moves::proofs::Stores::stores))]
    pub fn take(&mut self, s: u16)
        requires from { s < length self.old.cyan.now }
        requires count { get_or self.old.taken.now s 0 < 65535 }
        ensures worker { (n : ℕ) (w : Worker) → Holds self.old n w → Holds self.new n (takes w s) }
        ensures stores { words self.new ≡ take_words (length self.old.cyan.now) s (words self.old) }
        ensures same { SameParts self.old self.new }
    {
        self.taken[usize::from(s)] += 1;
    }

    // Move 2: x is taken from s, becomes cyan and goes on the outer stack.
    #[tactic(auto, using(moves::proofs::Stores::stores))]
    pub fn enter(&mut self, s: u16, x: u16)
        requires from { s < length self.old.cyan.now }
        requires to { x < length self.old.cyan.now }
        requires count { get_or self.old.taken.now s 0 < 65535 }
        requires room { self.old.outer_depth < length self.old.cyan.now }
        ensures worker { (n : ℕ) (w : Worker) → Holds self.old n w → Holds self.new n (enters w s x) }
        ensures stores { words self.new ≡ enter_words (length self.old.cyan.now) (own_in_parts self.old) s x (words self.old) }
        ensures same { SameParts self.old self.new }
    {
        self.taken[usize::from(s)] += 1;
        self.cyan[usize::from(x)] = 1;
        self.outer[usize::from(self.outer_depth)] = x;
        self.outer_depth += 1;
    }

    // The top s loses cyan and leaves the outer stack.
    #[tactic(auto, using(moves::proofs::Stores::stores))]
    fn pop(&mut self, s: u16)
        requires top { s < length self.old.cyan.now }
        requires some { 0 < self.old.outer_depth }
        requires deep { self.old.outer_depth ≤ length self.old.cyan.now }
        ensures worker { (n : ℕ) (w : Worker) (u : List ℕ) → Holds self.old n w → w.outer ≡ s ∷ u
            → Holds self.new n (pops w s u w.place w.R) }
        ensures stores { words self.new ≡ pop_words (length self.old.cyan.now) (own_in_parts self.old) s self.old.place (words self.old) }
        ensures same { SameParts self.old self.new }
    {
        let top = usize::from(s);
        self.outer_depth -= 1;
        self.cyan[top] = 0;
        self.outer[usize::from(self.outer_depth)] = 0;
        self.taken[top] = 0;
    }

    // Move 3, not accepting.
    #[tactic(auto, using(moves::proofs::Stores::stores))]
    pub fn leave(&mut self, s: u16)
        requires top { s < length self.old.cyan.now }
        requires some { 0 < self.old.outer_depth }
        requires deep { self.old.outer_depth ≤ length self.old.cyan.now }
        ensures worker { (n : ℕ) (w : Worker) (u : List ℕ) → Holds self.old n w → w.place ≡ Outer → w.outer ≡ s ∷ u
            → Holds self.new n (pops w s u (left Outer (is_empty u)) w.R) }
        ensures stores { words self.new ≡ leave_words (length self.old.cyan.now) (own_in_parts self.old) s (words self.old) }
        ensures same { SameParts self.old self.new }
    {
        self.pop(s);
        self.place = self.place.left(self.outer_depth == 0);
    }

    // Move 3, accepting: R, which is empty, holds only s.
    #[tactic(auto, using(moves::proofs::Stores::stores))]
    pub fn seed(&mut self, s: u16)
        requires top { s < length self.old.cyan.now }
        ensures worker { (n : ℕ) (w : Worker) → Holds self.old n w → w.place ≡ Outer → Calm w → Holds self.new n (seeds w s) }
        ensures stores { words self.new ≡ seed_words (length self.old.cyan.now) (own_in_parts self.old) s (words self.old) }
        ensures same { SameParts self.old self.new }
    {
        self.gathered[usize::from(s)] = 1;
        self.inner[0] = s;
        self.inner_depth = 1;
        self.taken[usize::from(s)] = 0;
        self.place = self.place.seeded(s);
    }

    // Move 4: x is taken from s, and joins R and the inner stack.
    // Not one function with `enter`: each contract names the worker's own set and stack.
    #[tactic(auto, using(moves::proofs::Stores::stores))]
    pub fn join(&mut self, s: u16, x: u16)
        requires from { s < length self.old.cyan.now }
        requires to { x < length self.old.cyan.now }
        requires count { get_or self.old.taken.now s 0 < 65535 }
        requires room { self.old.inner_depth < length self.old.cyan.now }
        ensures worker { (n : ℕ) (w : Worker) → Holds self.old n w → Holds self.new n (joins w s x) }
        ensures stores { words self.new ≡ join_words (length self.old.cyan.now) (own_in_parts self.old) s x (words self.old) }
        ensures same { SameParts self.old self.new }
    {
        self.taken[usize::from(s)] += 1;
        self.gathered[usize::from(x)] = 1;
        self.inner[usize::from(self.inner_depth)] = x;
        self.inner_depth += 1;
    }

    // Move 5.
    #[tactic(auto, using(moves::proofs::Stores::stores))]
    pub fn back(&mut self, s: u16)
        requires top { s < length self.old.cyan.now }
        requires some { 0 < self.old.inner_depth }
        requires deep { self.old.inner_depth ≤ length self.old.cyan.now }
        ensures worker { (n : ℕ) (w : Worker) (z : ℕ) (u : List ℕ) → Holds self.old n w → w.place ≡ Inner z → w.inner ≡ s ∷ u
            → Holds self.new n (backs w z s u) }
        ensures stores { words self.new ≡ back_words (length self.old.cyan.now) (own_in_parts self.old) s (words self.old) }
        ensures same { SameParts self.old self.new }
    {
        self.inner_depth -= 1;
        self.inner[usize::from(self.inner_depth)] = 0;
        self.taken[usize::from(s)] = 0;
        self.place = self.place.backed(self.inner_depth == 0);
    }

    // Move 6: the seed z leaves the outer stack, and R is emptied.
    #[tactic(auto, using(moves::proofs::Stores::stores))]
    pub fn paint(&mut self, z: u16)
        requires top { z < length self.old.cyan.now }
        requires some { 0 < self.old.outer_depth }
        requires deep { self.old.outer_depth ≤ length self.old.cyan.now }
        ensures worker { (n : ℕ) (w : Worker) (u : List ℕ) → Holds self.old n w → w.place ≡ Waiting z → w.outer ≡ z ∷ u
            → Holds self.new n (pops w z u (painted (Waiting z) (is_empty u)) empty) }
        ensures stores { words self.new ≡ paint_words (length self.old.cyan.now) (own_in_parts self.old) z (words self.old) }
        ensures same { SameParts self.old self.new }
    {
        self.pop(z);
        self.gathered.fill(0);
        self.place = self.place.painted(self.outer_depth == 0);
    }
}
