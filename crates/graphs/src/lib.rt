// Whether words are a graph: the check behind refusal 10.
#![tactic(auto)]

mod checks;
mod graph;

ghost use Rattle.std.specs.Prelude.{◌≡◌};
ghost use Rattle.graphs.specs.Words.{is_graph};

use checks::{all_below, never_falling, none_twice, offsets_span, sizes_fit};
pub use graph::Graph;

// The most states and transitions that a graph has.
pub const MOST_STATES: usize = 4096;

pub const MOST_TRANSITIONS: usize = 16384;

// 01: "Words are a graph if ..". Any words of any lengths; the time is in proportion to N + E. Three arguments and no `Graph`, since the words may be no graph.
#[tactic(auto, using(crate::proofs::Words::checked), unfolding(crate::specs::Words::is_graph))]
pub fn is_graph(offsets: &[u16], targets: &[u16], flags: &[u16]) -> bool
    ensures { result ≡ is_graph offsets.now targets.now flags.now }
{
    let n = flags.len();
    let e = targets.len();
    sizes_fit(n, e)
        && offsets_span(offsets, n, e)
        && never_falling(offsets)
        && all_below(targets, n)
        && none_twice(offsets, targets, n)
        && all_below(flags, 2)
}
