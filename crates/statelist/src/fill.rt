// Reading a text into lists that are all 0: the S lines, the T lines, then the lists of the graph. A refused reading leaves the lists as they
// are at the refused line.
ghost use Rattle.std.specs.Prelude.{◌≡◌, ◌-◌, ◌/◌, ◌≤◌, length, min, []};
ghost use Rattle.text.specs.Text.{most_text};
ghost use Rattle.text.specs.Lists.{zeros, rooms_of, states_held, transitions_held};
ghost use Rattle.statelist.specs.Loops.{from_here, Fills};

use crate::lists::build;
use crate::states::read_states;
use crate::transitions::read_transitions;
use crate::{ReadError, Size};
use pairs::Index;

#[tactic(auto, unfolding(text::specs::Lists::rooms_of))]
pub fn fill(
    offsets: &mut [u16],
    targets: &mut [u16],
    flags: &mut [u16],
    places: &mut [u32],
    text: &[u8],
) -> Result<Size, ReadError>
    requires short { length text.now ≤ most_text }
    requires offsets { offsets.old ≡ zeros (length offsets.old) }
    requires targets { targets.old ≡ zeros (length targets.old) }
    requires flags { flags.old ≡ zeros (length flags.old) }
    requires places { places.old ≡ zeros (length places.old) }
    ensures { Fills offsets.new targets.new flags.new places.new result
        (from_here (rooms_of (length offsets.old) (length targets.old) (length flags.old)
        (length places.old)) text.now 0 [] []) }
{
    let mut labels = Index::new();
    let held = states_held(offsets.len(), flags.len(), places.len());
    let at = read_states(text, held, flags, places, &mut labels)?;
    let mut pairs = Index::new();
    let held = targets.len().min(16384);
    read_transitions(text, at, held, &labels, offsets, &mut pairs)?;
    if labels.len == 0 {
        return Err(ReadError::NoState);
    }
    build(offsets, targets, &pairs, labels.len);
    Ok(Size {
        states: labels.len,
        transitions: pairs.len,
    })
}

// 01: "as many states as the least of 4,096, offset words less one (0 if there are none), flag words and half the place words rounded down".
fn states_held(offsets: usize, flags: usize, places: usize) -> usize
    ensures { result ≡ states_held offsets flags places }
{
    offsets
        .saturating_sub(1)
        .min(flags)
        .min(places / 2)
        .min(4096)
}
