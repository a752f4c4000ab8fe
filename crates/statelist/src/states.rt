// Reading the S lines: flags and label places go to the lent lists, and the labels to an index, numbered in S order.
ghost use Rattle.std.specs.Prelude.{◌≡◌, ◌*◌, ◌≤◌, ◌<◌, length, get_or};
ghost use Rattle.graphs.specs.Words.{most_states};
ghost use Rattle.text.specs.Text.{most_text};
ghost use Rattle.text.specs.Lists.{zeros};
ghost use Rattle.statelist.specs.Loops.{StateNext, StatesRead};

use crate::ReadError;
use lines::{StateLine, state_line};
use pairs::Index;

// Reads S lines up to the first line that is none, and gives its place.
#[tactic(auto, using(crate::proofs::Here::state_here, crate::proofs::Declared::state_past))]
pub fn read_states(
    text: &[u8],
    held: usize,
    flags: &mut [u16],
    places: &mut [u32],
    labels: &mut Index<4096>,
) -> Result<usize, ReadError>
    requires short { length text.now ≤ most_text }
    requires held { (held ≤ most_states) × (held ≤ length flags.old) × (2 * held ≤ length places.old) }
    requires none { (labels.old.len ≡ 0) × (flags.old ≡ zeros (length flags.old)) × (places.old ≡ zeros (length places.old)) }
    ensures { StatesRead text.now held flags.new places.new labels.new result }
{
    // from line to line, by no index
    let mut at = 0;
    while text.get(at) == Some(&b'S') {
        let line = next_state(text, at, held, labels)?;
        let n = labels.len;
        flags[n] = line.flag;
        places[2 * n] = (at + 2) as u32;
        places[2 * n + 1] = line.label.len as u32;
        labels.insert(line.label.first, line.label.second);
        at = line.next;
    }
    Ok(at)
}

// 01: "within an S line 2, 3, 6".
fn next_state(
    text: &[u8],
    at: usize,
    held: usize,
    labels: &Index<4096>,
) -> Result<StateLine, ReadError>
    requires short { length text.now ≤ most_text }
    requires letter { (at < length text.now) × (get_or text.now at 0 ≡ 83) }
    ensures { StateNext text.now held labels.now at result }
{
    let line = labels.len + 1;
    let Some(state) = state_line(text, at) else {
        return Err(ReadError::NoForm { line });
    };
    let None = labels.find(state.label.first, state.label.second) else {
        return Err(ReadError::DeclaredTwice { line });
    };
    if held <= labels.len {
        return Err(ReadError::NoStateRoom { line });
    }
    Ok(state)
}
