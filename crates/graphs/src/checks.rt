// The parts of refusal 10's condition, a function each, named and ordered as in specs/Words.antt.
ghost use Rattle.std.specs.Prelude.{◌≡◌, ◌+◌, ◌-◌, ◌<◌, ◌≤◌, length, get_or};
ghost use Rattle.graphs.specs.Words.{most_states, sizes_fit, offsets_span, never_falling, all_below, none_twice};
ghost use Rattle.graphs.specs.Stamps.{Fit, Blank, Stamped};

// 01: "N .. is 1 to 4,096; E .. is at most 16,384"
#[tactic(auto, unfolding(crate::specs::Words::sizes_fit))]
pub fn sizes_fit(n: usize, e: usize) -> bool
    ensures { result ≡ sizes_fit n e }
{
    (1..=crate::MOST_STATES).contains(&n) && e <= crate::MOST_TRANSITIONS
}

// 01: "there are N+1 offsets, first 0, last E"
#[tactic(auto, unfolding(crate::specs::Words::offsets_span))]
pub fn offsets_span(offsets: &[u16], n: usize, e: usize) -> bool
    requires { n ≤ most_states }
    ensures { result ≡ offsets_span offsets.now n e }
{
    offsets.len() == n + 1 && offsets[0] == 0 && usize::from(offsets[n]) == e
}

// 01: "never falling"
pub fn never_falling(offsets: &[u16]) -> bool
    ensures { result ≡ never_falling offsets.now (length offsets.now - 1) }
{
    offsets.is_sorted()
}

// 01: "every target is below N", "every flag is 0 or 1"
pub fn all_below(words: &[u16], bound: usize) -> bool
    ensures { result ≡ all_below words.now bound }
{
    words.iter().all(|&word| usize::from(word) < bound)
}

// 01: "no state has the same target twice". Each target is stamped in a table with its source, counted from 1. The loop is by number, since the number is the stamp.
#[tactic(auto, using(crate::proofs::Words::rising_to), unfolding(crate::specs::Lists::every, crate::specs::Words::none_twice, crate::specs::Words::successors))]
pub fn none_twice(offsets: &[u16], targets: &[u16], n: usize) -> bool
    requires { Fit offsets.now targets.now n }
    ensures { result ≡ none_twice offsets.now targets.now n }
{
    let mut table = [0u16; crate::MOST_STATES];
    for s in 0..n {
        let row = &targets[usize::from(offsets[s])..usize::from(offsets[s + 1])];
        if !stamp_all(&mut table, row, s as u16 + 1) {
            return false;
        }
    }
    true
}

// Stamps each of the targets; false at one that has the stamp already.
fn stamp_all(table: &mut [u16], targets: &[u16], stamp: u16) -> bool
    requires { Blank table.old targets.now stamp }
    ensures { Stamped table.new targets.now stamp result }
{
    for &target in targets {
        let t = usize::from(target);
        if table[t] == stamp {
            return false;
        }
        table[t] = stamp;
    }
    true
}
