// Reading state-list text: 01 "The text", refusals 1 to 8.
#![tactic(auto)]

mod fill;
mod lists;
mod states;
mod transitions;

ghost use Rattle.std.specs.Prelude.{◌≡◌, length};
ghost use Rattle.text.specs.Lists.{outcome, zeros};
ghost use Rattle.statelist.specs.Told.{comes};

use fill::fill;

// The most bytes that a text has.
pub const MOST_TEXT: usize = 1048576;

// The numbers of states and transitions of a text that is a graph.
#[derive(Clone, Copy, Debug, PartialEq, Eq)]
pub struct Size {
    pub states: usize,
    pub transitions: usize,
}

// Why a text is refused, in the order of 01's numbers 1 to 8.
#[derive(Clone, Copy, Debug, PartialEq, Eq)]
pub enum ReadError {
    TooLong,
    NoForm { line: usize },
    DeclaredTwice { line: usize },
    NotDeclared { line: usize },
    PairTwice { line: usize },
    NoStateRoom { line: usize },
    NoTransitionRoom { line: usize },
    NoState,
}

// Reads a text into four lists of any lengths. Unused words become 0, and so do all words if the text is refused. 01: "The reader fills four lent lists",
// an argument each, here and in what passes them on.
pub fn read(
    offsets: &mut [u16],
    targets: &mut [u16],
    flags: &mut [u16],
    places: &mut [u32],
    text: &[u8],
) -> Result<Size, ReadError>
    ensures { comes result offsets.new targets.new flags.new places.new
        ≡ outcome (length offsets.old) (length targets.old) (length flags.old)
        (length places.old) text.now }
{
    clear(offsets, targets, flags, places);
    if text.len() > MOST_TEXT {
        return Err(ReadError::TooLong);
    }
    match fill(offsets, targets, flags, places, text) {
        Ok(size) => Ok(size),
        Err(error) => {
            clear(offsets, targets, flags, places);
            Err(error)
        }
    }
}

fn clear(offsets: &mut [u16], targets: &mut [u16], flags: &mut [u16], places: &mut [u32])
    ensures offsets { offsets.new ≡ zeros (length offsets.old) }
    ensures targets { targets.new ≡ zeros (length targets.old) }
    ensures flags { flags.new ≡ zeros (length flags.old) }
    ensures places { places.new ≡ zeros (length places.old) }
{
    offsets.fill(0);
    targets.fill(0);
    flags.fill(0);
    places.fill(0);
}
