// Runs `is_graph` on words that are a graph, and on words that break each clause of refusal 10 at its edge, and prints what it says.
#![tactic(auto)]

ghost use Rattle.std.specs.Prelude.{◌≡◌, length};

use std::array;

// A name, and the offsets, targets and flags.
const SMALL: [(&str, &[u16], &[u16], &[u16]); 25] = [
    // 01's small graphs
    ("one state, no transition", &[0, 0], &[], &[0]),
    ("one marked state that leads to itself", &[0, 1], &[0], &[1]),
    (
        "0417 leads to 417, which leads to itself",
        &[0, 1, 2],
        &[1, 1],
        &[0, 1],
    ),
    (
        "a state without transitions before one with two",
        &[0, 0, 2],
        &[0, 1],
        &[0, 1],
    ),
    (
        "two states that share both targets",
        &[0, 2, 4],
        &[1, 0, 1, 0],
        &[1, 1],
    ),
    // how many words there are
    ("no words at all", &[], &[], &[]),
    ("no state, one offset", &[0], &[], &[]),
    ("no offset, one state", &[], &[], &[0]),
    ("an offset too few", &[0, 2], &[0, 1], &[0, 0]),
    ("an offset too many", &[0, 1, 2, 2], &[0, 1], &[0, 0]),
    // the offsets
    ("the first offset is 1", &[1, 1, 2], &[0, 1], &[0, 0]),
    ("the last offset is below E", &[0, 1, 1], &[0, 1], &[0, 0]),
    ("the last offset is above E", &[0, 1, 3], &[0, 1], &[0, 0]),
    ("offsets that fall", &[0, 2, 1, 2], &[0, 1], &[0, 0, 0]),
    (
        "offsets that fall, past E first",
        &[0, 65535, 2],
        &[0, 1],
        &[0, 0],
    ),
    ("offsets that stand", &[0, 2, 2, 2], &[0, 1], &[0, 0, 0]),
    // the targets
    ("the last state as a target", &[0, 1, 1], &[1], &[0, 0]),
    ("target N", &[0, 1, 1], &[2], &[0, 0]),
    ("target 65535", &[0, 1, 1], &[65535], &[0, 0]),
    ("a target twice in a row", &[0, 2, 2], &[1, 1], &[0, 0]),
    (
        "a target twice with one between",
        &[0, 0, 3],
        &[0, 1, 0],
        &[0, 0],
    ),
    (
        "a target at the end of a state and the start of the next",
        &[0, 2, 4],
        &[0, 1, 1, 0],
        &[0, 0],
    ),
    // the flags
    ("flag 1", &[0, 0], &[], &[1]),
    ("flag 2", &[0, 0], &[], &[2]),
    ("flag 65535 last", &[0, 0, 0], &[], &[1, 65535]),
];

// A write that fails is let go: it doesn't end the program with an error.
fn main(rt: HostRuntime) {
    for (name, offsets, targets, flags) in SMALL {
        case(&rt, name, offsets, targets, flags);
    }
    largest(&rt);
}

// Prints what `is_graph` says of the words: its three arguments, which may be no graph.
fn case(rt: &impl Print, name: &str, offsets: &[u16], targets: &[u16], flags: &[u16]) {
    let says = if graphs::is_graph(offsets, targets, flags) {
        "graph"
    } else {
        "no graph"
    };
    println!(rt; "{says}\t{name}").ok();
}

// The largest graph, and one state or one transition more.
fn largest(rt: &impl Print) {
    let few = offsets::<4098>(16384);
    let many = offsets::<4097>(16385);
    let targets = targets::<16385>();
    let flags = [0; 4097];
    case(
        rt,
        "4,096 states and 16,384 transitions",
        &few[..4097],
        &targets[..16384],
        &flags[..4096],
    );
    case(rt, "4,097 states", &few, &targets[..16384], &flags);
    case(rt, "16,385 transitions", &many, &targets, &flags[..4096]);
}

// In a ring of 4,096 states, s leads to s, s + 5, s + 10 and s + 15.
fn offsets<const N: usize>(last: u16) -> [u16; N]
    ensures { N ≡ length result }
{
    array::from_fn(|s| if s < 4096 { (4 * s) as u16 } else { last })
}

fn targets<const E: usize>() -> [u16; E]
    ensures { E ≡ length result }
{
    array::from_fn(|k| ((k / 4 + k % 4 * 5) % 4096) as u16)
}
