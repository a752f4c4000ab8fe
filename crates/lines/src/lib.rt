// Bytes, labels and lines: the kinds of bytes, and whether a state or a transition stands at a place of a text.
#![tactic(auto)]

mod kinds;
mod scan;

ghost use Rattle.std.specs.Prelude.{◌≡◌, ◌≤◌, drop};
ghost use Rattle.lines.specs.Found.{state_found, transition_found};

pub use kinds::{Kind, kind_table};
use scan::{first_label, front};

// A label: its length, and its bytes as two words, the first eight bytes and the rest of them, in base 256. Different labels have different
// words (`words_differ`), and two words are looked up faster than sixteen bytes.
#[derive(Clone, Copy, Debug, PartialEq, Eq)]
pub struct Label {
    pub len: usize,
    pub first: usize,
    pub second: usize,
}

// A state line: its label, its flag as the lent list holds it, 0 or 1, and the place after its line feed.
#[derive(Clone, Copy, Debug, PartialEq, Eq)]
pub struct StateLine {
    pub label: Label,
    pub flag: u16,
    pub next: usize,
}

// A transition line: its two labels, and the place after its line feed.
#[derive(Clone, Copy, Debug, PartialEq, Eq)]
pub struct TransitionLine {
    pub from: Label,
    pub to: Label,
    pub next: usize,
}

// The state that stands at a place of a text: `S→label→flag` and a line feed.
pub fn state_line(text: &[u8], at: usize) -> Option<StateLine>
    requires { at ≤ 1048576 }
    ensures { result ≡ state_found at (drop at text.now) }
{
    let (label, left) = first_label(front(text, at, b'S')?)?;
    let flag = if left.starts_with(b"\ta\n") {
        1
    } else if left.starts_with(b"\t-\n") {
        0
    } else {
        return None;
    };
    // `S`, two tabs, the flag and the line feed stand around the label
    Some(StateLine {
        label,
        flag,
        next: at + label.len + 5,
    })
}

// The transition that stands at a place of a text: `T→label→label` and a line feed.
pub fn transition_line(text: &[u8], at: usize) -> Option<TransitionLine>
    requires { at ≤ 1048576 }
    ensures { result ≡ transition_found at (drop at text.now) }
{
    let (from, left) = first_label(front(text, at, b'T')?)?;
    let (to, left) = first_label(left.strip_prefix(b"\t")?)?;
    if !left.starts_with(b"\n") {
        return None;
    }
    // `T`, two tabs and the line feed stand around the labels
    Some(TransitionLine {
        from,
        to,
        next: at + from.len + to.len + 4,
    })
}
