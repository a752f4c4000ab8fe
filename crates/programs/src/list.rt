// What `read` leaves of a text that it takes.
ghost use Rattle.std.specs.Prelude.{◌≡◌, true};
ghost use Rattle.graphs.specs.Words.{is_graph};
ghost use Rattle.programs.specs.Given.{Given};

use report::Labels;
use statelist::Size;

// The words of a graph, and the labels of its states.
#[derive(Clone, Copy)]
pub struct StateList<'a> {
    pub offsets: &'a [u16],
    pub targets: &'a [u16],
    pub flags: &'a [u16],
    pub labels: Labels<'a>,
    pub ghost is_graph: { is_graph offsets.now targets.now flags.now ≡ true },
    pub ghost given: { Given flags.now labels },
}

impl<'a> StateList<'a> {
    ghost use Rattle.std.specs.Prelude.{◌≡◌, ◌≤◌, ◌+◌, length, take, Ok};
    ghost use Rattle.statelist.specs.Told.{comes};
    ghost use Rattle.text.specs.Lists.{outcome};

    // Of the four lists that `read` has filled, the parts that the text takes: the one place where they become one value.
    pub fn new(
        offsets: &'a [u16],
        targets: &'a [u16],
        flags: &'a [u16],
        places: &'a [u32],
        text: &'a [u8],
        size: Size,
    ) -> StateList<'a>
        requires few { length offsets.now ≤ 4097 }
        requires read { comes (Ok size) offsets.now targets.now flags.now places.now
            ≡ outcome (length offsets.now) (length targets.now) (length flags.now) (length places.now) text.now }
        ensures offsets { result.offsets.now ≡ take (size.states + 1) offsets.now }
        ensures targets { result.targets.now ≡ take size.transitions targets.now }
        ensures flags { result.flags.now ≡ take size.states flags.now }
        ensures places { result.labels.places.now ≡ places.now }
        ensures text { result.labels.text.now ≡ text.now }
    {
        StateList {
            offsets: &offsets[..size.states + 1],
            targets: &targets[..size.transitions],
            flags: &flags[..size.states],
            labels: Labels { text, places },
        }
    }
}
