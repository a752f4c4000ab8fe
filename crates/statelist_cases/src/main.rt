// Runs `read` on the cases of standard input, and on texts at 01's largest length, and prints what it says and each word of the lent lists.
// A case is a line `LLLL name`, a text, and byte 30, which stands in no text. An L gives the length of a lent list: how far it is above `0`.
// The cases, and what has to be printed, are made by tests/texts.
#![tactic(auto)]

ghost use Rattle.std.specs.Prelude.{◌≡◌, length};

use refusals::Refusal;
use std::fmt::Display;

// The most words that a case lends in one list.
const MOST_LENT: usize = 64;

// A read that fails ends the input, and a write that fails is let go: neither ends the program with an error.
fn main(rt: HostRuntime) {
    let mut input = io::large_buffer();
    let n = io::read_full(0, &mut input);
    cases(&rt, &input[..n]);
    read_longest(&rt);
}

fn cases(rt: &impl Print, input: &[u8]) {
    for case in input.split_inclusive(|b| *b == 30) {
        read_case(rt, case.strip_suffix(&[30]).unwrap_or(case));
    }
}

fn read_case(rt: &impl Print, case: &[u8]) {
    let [o, t, f, p, _, rest @ ..] = case else {
        return;
    };
    let mut parts = rest.splitn(2, |b| *b == b'\n');
    let (Some(name), Some(text)) = (parts.next(), parts.next()) else {
        return;
    };
    rt.write_all(name).ok();
    println!(rt; "").ok();
    let lengths = [*o, *t, *f, *p].map(|l| usize::from(l.saturating_sub(b'0')));
    read(rt, lengths, text);
}

// 01: "text over 1,048,576 bytes" is refusal 1. A line of so many `S` has none of the forms.
fn read_longest(rt: &impl Print) {
    let text = line::<1048577>();
    println!(rt; "1,048,576 bytes").ok();
    read(rt, [3, 2, 2, 4], &text[..1048576]);
    println!(rt; "1,048,577 bytes").ok();
    read(rt, [3, 2, 2, 4], &text);
}

// The contract gives the length, so that the check need not unfold the array.
fn line<const N: usize>() -> [u8; N]
    ensures { N ≡ length result }
{
    [b'S'; N]
}

// Lends lists of o, t, f and p words, which are not 0, so that the output shows that they are cleared.
fn read(rt: &impl Print, lengths: [usize; 4], text: &[u8]) {
    let [o, t, f, p] = lengths.map(|l| l.min(MOST_LENT));
    let offsets = &mut [7u16; MOST_LENT][..o];
    let targets = &mut [7u16; MOST_LENT][..t];
    let flags = &mut [7u16; MOST_LENT][..f];
    let places = &mut [7u32; MOST_LENT][..p];
    match statelist::read(offsets, targets, flags, places, text) {
        Ok(size) => println!(rt; "graph\t{}\t{}", size.states, size.transitions),
        Err(error) => {
            let Refusal { number, line } = Refusal::from(error);
            println!(rt; "refused\t{number}\t{line}")
        }
    }
    .ok();
    list(rt, "offsets", offsets);
    list(rt, "targets", targets);
    list(rt, "flags", flags);
    list(rt, "places", places);
}

fn list<T: Display>(rt: &impl Print, name: &str, words: &[T]) {
    print!(rt; "{name}").ok();
    for word in words {
        print!(rt; "\t{word}").ok();
    }
    println!(rt; "").ok();
}
