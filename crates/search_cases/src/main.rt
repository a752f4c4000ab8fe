// Runs the search on the cases of standard input, and prints what each came to, its tally, and each word of the room and the lasso room.
// A case is a line of eight fields, parted by tabs: name; workers, words of the room, words of the lasso room, as numbers; turns, offsets, targets
// and flags, a byte for each: how far it is above `0`. Turns `*` are the run to the end. A field that is left out is 0, or empty.
// The cases, and what has to be printed, are made by tests/runs.
#![tactic(auto)]

use search::{Counted, Outcome};
use std::array;

// The most turns or words of a list, and the most words that a case lends.
const MOST_LISTED: usize = 64;

const MOST_ROOM: usize = 400;

const MOST_LASSO: usize = 32;

// A read that fails ends the input, and a write that fails is let go: neither ends the program with an error.
fn main(rt: HostRuntime) {
    let mut input = io::large_buffer();
    let n = io::read_full(0, &mut input);
    cases(&rt, &input[..n]);
}

fn cases(rt: &impl Print, input: &[u8]) {
    for line in input.split_inclusive(|b| *b == b'\n') {
        run(rt, line.strip_suffix(b"\n").unwrap_or(line));
    }
}

// Lends rooms that hold 9 everywhere, which no word of these cases is to become: so the output shows which words the run has set.
fn run(rt: &impl Print, case: &[u8]) {
    let mut fields = case.split(|b| *b == b'\t');
    let [name, workers, room, lasso, turns, offsets, targets, flags]: [&[u8]; 8] = array::from_fn(
        |_| fields.next().unwrap_or(&[]),
    );
    let workers = number(workers);
    let room = &mut [9; MOST_ROOM][..number(room).min(MOST_ROOM)];
    let lasso = &mut [9; MOST_LASSO][..number(lasso).min(MOST_LASSO)];
    let [mut o, mut t, mut f] = [[0u16; MOST_LISTED]; 3];
    let offsets = list(offsets, &mut o);
    let targets = list(targets, &mut t);
    let flags = list(flags, &mut f);
    let Counted { outcome, tally } = if turns.starts_with(b"*") {
        search::counted_run_to_end(room, lasso, offsets, targets, flags, workers)
    } else {
        let mut bytes = [0; MOST_LISTED];
        search::counted_run(
            room,
            lasso,
            list(turns, &mut bytes),
            offsets,
            targets,
            flags,
            workers,
        )
    };
    rt.write_all(name).ok();
    println!(rt; "").ok();
    match outcome {
        Ok(Outcome::Cycle { stem, loop_, used }) => println!(rt; "cycle\t{stem}\t{loop_}\t{used}"),
        Ok(Outcome::None { used }) => println!(rt; "none\t{used}"),
        Ok(Outcome::Undecided { used }) => println!(rt; "undecided\t{used}"),
        Err(error) => println!(rt; "refused\t{}", error.number()),
    }
    .ok();
    println!(rt;
        "tally\t{}\t{}\t{}\t{}",
        tally.outer, tally.inner, tally.waits, tally.moves
    )
    .ok();
    words(rt, "room", room);
    words(rt, "lasso", lasso);
}

// A decimal number, of 19 digits at most. Not by `parse`, which refuses what a case may hold: bytes that are no digits count by how far they are above `0`.
fn number(field: &[u8]) -> usize {
    field.iter().fold(
        0,
        |n, b| if n < 1000000000000000000 {
            n * 10 + usize::from(b.saturating_sub(b'0'))
        } else {
            n
        },
    )
}

// The list of a field, at the front of `words`.
fn list<'a, T: From<u8> + Drop>(field: &[u8], words: &'a mut [T]) -> &'a [T] {
    let n = field.len().min(words.len());
    let (list, _) = words.split_at_mut(n);
    for (word, b) in list.iter_mut().zip(field) {
        *word = T::from(b.saturating_sub(b'0'));
    }
    list
}

// A digit for each word, of which no list has more than a room. One above 9 would show as `+`.
fn words(rt: &impl Print, name: &str, words: &[u16]) {
    let mut digits = [b'+'; MOST_ROOM];
    for (digit, word) in digits.iter_mut().zip(words) {
        if *word < 10 {
            *digit = b'0' + *word as u8;
        }
    }
    print!(rt; "{name}\t").ok();
    rt.write_all(&digits[..words.len().min(MOST_ROOM)]).ok();
    println!(rt; "").ok();
}
