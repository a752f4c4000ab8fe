// The order in which a worker looks at the successors of a state.
ghost use Rattle.std.specs.Prelude.{◌≡◌, ◌<◌, ◌++◌, length, slice_get};
ghost use Rattle.graphs.specs.Graph.{turned};

// 01: "starting at number p mod d and going round once": number k of that order, counted from 0.
#[tactic(auto, using(crate::proofs::Next::past_order))]
pub fn in_order(row: &[u16], p: usize, k: usize) -> Option<u16>
    ensures { result ≡ slice_get (turned p row.now) k }
{
    if row.len() <= k {
        return None;
    }
    let (before, from) = cut(row, p);
    either(from, before, k)
}

#[tactic(auto, unfolding(graphs::specs::Graph::turned))]
fn cut(row: &[u16], p: usize) -> (&[u16], &[u16])
    requires { 0 < length row.now }
    ensures { result.1.now ++ result.0.now ≡ turned p row.now }
{
    row.split_at(p % row.len())
}

fn either(from: &[u16], before: &[u16], k: usize) -> Option<u16>
    ensures { result ≡ slice_get (from.now ++ before.now) k }
{
    match from.get(k) {
        Some(&x) => Some(x),
        None => before.get(k - from.len()).copied(),
    }
}
