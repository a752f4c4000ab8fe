// `is_graph` for C and Rust to link: the same answer, under a name that begins with the crate's.
#![tactic(auto)]

ghost use Rattle.std.specs.Prelude.{◌≡◌};
ghost use Rattle.graphs.specs.Words.{is_graph};

// Three slices, for C.
#[unsafe(no_mangle)]
pub extern "C" fn graphs_c_is_graph(offsets: &[u16], targets: &[u16], flags: &[u16]) -> bool
    ensures { result ≡ is_graph offsets.now targets.now flags.now }
{
    graphs::is_graph(offsets, targets, flags)
}
