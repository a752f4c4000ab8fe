// What stands at a place of a text: the front of a line, which is its letter and a tab, and a label.
ghost use Rattle.std.specs.Prelude.{ℕ, ◌≡◌, ◌≢◌, ◌≤◌, List, [], ◌∷◌, MatchOption, IfSome, length, take, drop};
ghost use Rattle.lines.specs.Scan.{part_of, label_here, Begins};

use crate::Label;
use crate::kinds::Kind;

// What is left of the text after the letter and a tab, if they stand at the place.
pub fn front(text: &[u8], at: usize, letter: u8) -> Option<&[u8]>
    ensures { MatchOption result ((left : List ℕ) → drop at text.now ≢ letter ∷ 9 ∷ left) (λ left. drop at text.now ≡ letter ∷ 9 ∷ left.now) }
{
    match text.get(at..)? {
        [first, b'\t', left @ ..] if *first == letter => Some(left),
        _ => None,
    }
}

#[derive(Clone, Copy)]
struct Part {
    len: usize,
    word: usize,
}

// How many of up to eight bytes are a label's, and their word. (One loop for both: `take_while` and `count`, and then a fold over the bytes, take
// 1.4 times the instructions.)
fn first_part(left: &[u8]) -> Part
    ensures is { result ≡ part_of (take 8 left.now) }
    ensures within { (result.len ≤ 8) × (result.len ≤ length left.now) }
{
    let mut len = 0;
    let mut word = 0;
    for &byte in &left[..left.len().min(8)] {
        if !Kind::of(byte).is_of_label() {
            break;
        }
        word = word * 256 + usize::from(byte);
        len += 1;
    }
    Part { len, word }
}

// The label of up to 16 bytes that stands first, and what is left after it.
#[tactic(auto, unfolding(crate::specs::Scan::part_of))]
pub fn first_label(left: &[u8]) -> Option<(Label, &[u8])>
    ensures begins { MatchOption result (label_here left.now ≡ []) (λ r. Begins left.now r.0 r.1.now) }
    ensures few { IfSome result (λ r. r.0.len ≤ 16) }
{
    let Part { len, word } = first_part(left);
    if len == 0 {
        return None;
    }
    if len < 8 {
        let label = Label {
            len,
            first: word,
            second: 0,
        };
        return Some((label, &left[len..]));
    }
    let rest = first_part(&left[8..]);
    let label = Label {
        len: 8 + rest.len,
        first: word,
        second: rest.word,
    };
    Some((label, &left[label.len..]))
}
