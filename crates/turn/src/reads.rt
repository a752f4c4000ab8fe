// What a turn reads of its worker's stretch: the tops of the stacks, the successor that is next, the sets, and whether R's accepting states other than the seed are red.
ghost use Rattle.std.specs.Prelude.{ℕ, ◌≡◌, ◌<◌, ◌↔◌, Bool, IsTrue, length};
ghost use Rattle.moves.specs.Words.{IsSet};
ghost use Rattle.turn.specs.Others.{OthersRed};

use crate::order::in_order;
use crate::stretch::Stretch;
use graphs::Graph;

// Whether the set has x.
#[tactic(auto, using(moves::proofs::Stores::reads))]
fn is_in(set: &[u16], x: u16) -> bool
    requires { x < length set.now }
    ensures { (n : ℕ) (f : ℕ → Bool) → IsSet n f set.now → result ≡ f x }
{
    set[usize::from(x)] == 1
}

// Whether each state that is held and accepting, other than z, is red.
#[tactic(auto, unfolding(graphs::specs::Words::marked))]
fn are_red(held: &[u16], graph: &Graph<'_>, red: &[u16], z: u16) -> bool
    requires held { length held.now ≡ length graph.now.flags.now }
    requires red { length red.now ≡ length held.now }
    ensures { IsTrue result ↔ OthersRed held.now graph.now.flags.now red.now z }
{
    let z = usize::from(z);
    (0..held.len()).all(|i| held[i] != 1 || !graph.is_marked(i) || i == z || red[i] == 1)
}

impl Stretch<'_, '_, '_, '_, '_> {
    ghost use Rattle.std.specs.Prelude.{ℕ, ◌≡◌, ◌<◌, ◌≤◌, ◌||◌, Bool, List, ◌∷◌, length, get_or, IfSome};
    ghost use Rattle.moves.specs.Machine.{Worker, Machine};
    ghost use Rattle.moves.specs.Moves.{remaining, others_red};
    ghost use Rattle.moves.specs.Words.{IsSet};
    ghost use Rattle.turn.specs.Holds.{Holds, Topped, graph_in, first_of};

    #[tactic(auto, using(moves::proofs::Stores::reads))]
    pub fn outer_top(&self) -> u16
        requires { Topped self.now.outer.now self.now.outer_depth }
        ensures some { 0 < self.now.outer_depth }
        ensures deep { self.now.outer_depth ≤ length self.now.cyan.now }
        ensures below { result < length self.now.cyan.now }
        ensures top { (n s : ℕ) (w : Worker) (u : List ℕ) → Holds self.now n w → w.outer ≡ s ∷ u → w.outer ≡ result ∷ u }
    {
        self.outer[usize::from(self.outer_depth) - 1]
    }

    // Not one function with `outer_top` over a stack: each contract names the worker's own stack, as those of the tests below name its own set.
    #[tactic(auto, using(moves::proofs::Stores::reads))]
    pub fn inner_top(&self) -> u16
        requires { Topped self.now.inner.now self.now.inner_depth }
        ensures some { 0 < self.now.inner_depth }
        ensures deep { self.now.inner_depth ≤ length self.now.cyan.now }
        ensures below { result < length self.now.cyan.now }
        ensures top { (n s : ℕ) (w : Worker) (u : List ℕ) → Holds self.now n w → w.inner ≡ s ∷ u → w.inner ≡ result ∷ u }
    {
        self.inner[usize::from(self.inner_depth) - 1]
    }

    // The first successor of s that is left, in worker p's order.
    pub fn next(&self, graph: &Graph<'_>, p: usize, s: u16) -> Option<u16>
        requires states { length graph.now.flags.now ≡ length self.now.cyan.now }
        requires from { s < length self.now.cyan.now }
        ensures next { (n : ℕ) (m : Machine) → Holds self.now n (m.worker p)
            → result ≡ first_of (remaining (graph_in graph.now) p m s) }
        ensures below { IfSome result (λ x. x < length self.now.cyan.now) }
        ensures count { IfSome result (λ x. get_or self.now.taken.now s 0 < 65535) }
    {
        let s = usize::from(s);
        in_order(graph.successors(s), p, usize::from(self.taken[s]))
    }

    pub fn is_cyan(&self, x: u16) -> bool
        requires { x < length self.now.cyan.now }
        ensures { (n : ℕ) (w : Worker) → Holds self.now n w → result ≡ w.cyan x }
    {
        is_in(self.cyan, x)
    }

    pub fn is_cyan_or_in(&self, blue: &[u16], x: u16) -> bool
        requires state { x < length self.now.cyan.now }
        requires blue { length blue.now ≡ length self.now.cyan.now }
        ensures { (n : ℕ) (w : Worker) (b : ℕ → Bool) → Holds self.now n w → IsSet n b blue.now → result ≡ (w.cyan x || b x) }
    {
        self.is_cyan(x) || is_in(blue, x)
    }

    // Not one function with the test above: see `inner_top`.
    pub fn is_gathered_or_in(&self, red: &[u16], x: u16) -> bool
        requires state { x < length self.now.cyan.now }
        requires red { length red.now ≡ length self.now.cyan.now }
        ensures { (n : ℕ) (w : Worker) (r : ℕ → Bool) → Holds self.now n w → IsSet n r red.now → result ≡ (w.R x || r x) }
    {
        is_in(self.gathered, x) || is_in(red, x)
    }

    // 01: "every accepting state of R other than the seed is red"
    pub fn others_are_red(&self, graph: &Graph<'_>, red: &[u16], z: u16) -> bool
        requires states { length graph.now.flags.now ≡ length self.now.cyan.now }
        requires red { length red.now ≡ length self.now.cyan.now }
        ensures { (n p : ℕ) (m : Machine) → Holds self.now n (m.worker p) → IsSet n m.red red.now
            → result ≡ others_red (graph_in graph.now) p m z }
    {
        are_red(self.gathered, graph, red, z)
    }

    // 01: "all of R becomes red at once". By index, since of `iter_mut` no more than the length is known.
    pub fn dye(&self, red: &mut [u16])
        requires { length red.old ≡ length self.now.cyan.now }
        ensures len { length red.new ≡ length red.old }
        ensures red { (n : ℕ) (w : Worker) (r : ℕ → Bool) → Holds self.now n w → IsSet n r red.old
            → IsSet n (λ x. r x || w.R x) red.new }
    {
        for i in 0..red.len() {
            red[i] |= self.gathered[i];
        }
    }
}
