// A graph in lent words, checked once: whoever has a `Graph` has words of which `is_graph` holds.
ghost use Rattle.std.specs.Prelude.{◌≡◌, ◌<◌, ◌↔◌, length, true, All, IsTrue, IsSome, IfSome};
ghost use Rattle.graphs.specs.Words.{is_graph, successors, marked};

#[derive(Clone, Copy)]
pub struct Graph<'a> {
    pub offsets: &'a [u16],
    pub targets: &'a [u16],
    pub flags: &'a [u16],
    pub ghost is_graph: { is_graph offsets.now targets.now flags.now ≡ true },
}

impl<'a> Graph<'a> {
    // The one place where three lists become one value.
    pub fn new(offsets: &'a [u16], targets: &'a [u16], flags: &'a [u16]) -> Option<Graph<'a>>
        ensures some { IsSome result ↔ (is_graph offsets.now targets.now flags.now ≡ true) }
        ensures offsets { IfSome result (λ g. g.offsets.now ≡ offsets.now) }
        ensures targets { IfSome result (λ g. g.targets.now ≡ targets.now) }
        ensures flags { IfSome result (λ g. g.flags.now ≡ flags.now) }
    {
        if crate::is_graph(offsets, targets, flags) {
            Some(Graph {
                offsets,
                targets,
                flags,
            })
        } else {
            None
        }
    }

    pub fn states(&self) -> usize
        ensures { result ≡ length self.now.flags.now }
    {
        self.flags.len()
    }

    // The successors of s: the targets from its offset to the next one.
    #[tactic(auto, using(crate::proofs::Words::rows), unfolding(crate::specs::Words::successors))]
    pub fn successors(&self, s: usize) -> &'a [u16]
        requires { s < length self.now.flags.now }
        ensures row { result.now ≡ successors self.now.offsets.now self.now.targets.now s }
        ensures below { All (λ t. t < length self.now.flags.now) result.now }
    {
        let from = usize::from(self.offsets[s]);
        let to = usize::from(self.offsets[s + 1]);
        &self.targets[from..to]
    }

    #[tactic(auto, unfolding(crate::specs::Words::marked))]
    pub fn is_marked(&self, s: usize) -> bool
        requires { s < length self.now.flags.now }
        ensures { result ≡ marked self.now.flags.now s }
    {
        self.flags[s] == 1
    }
}
