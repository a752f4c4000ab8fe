// A state's label, from the text by its place, and a line for each state of a list.
ghost use Rattle.page.specs.Page.{Holds, Adds};
ghost use Rattle.report.specs.Shows.{label_of, Labelled, ShowsAll};
ghost use Rattle.report.specs.Report.{state_line, state_lines};

use page::Page;

// The labels of a text's states: `places` has two words for each state, where its label starts in the text, and how long it is.
#[derive(Clone, Copy)]
pub struct Labels<'a> {
    pub text: &'a [u8],
    pub places: &'a [u32],
}

impl<'a> Labels<'a> {
    ghost use Rattle.std.specs.Prelude.{◌≡◌};
    ghost use Rattle.report.specs.Shows.{label_of, Labelled};

    // The label of state s.
    #[tactic(auto, unfolding(text::specs::Labels::label_at))]
    pub fn label(&self, s: u16) -> &'a [u8]
        requires { Labelled self.now s }
        ensures { result.now ≡ label_of self.now s }
    {
        let i = 2 * usize::from(s);
        let start = self.places[i] as usize;
        let end = start + self.places[i + 1] as usize;
        &self.text[start..end]
    }
}

// 01: "one line a state of stem and of loop, in order"
#[tactic(auto, using(page::proofs::Written::laws))]
pub fn put_states(page: &mut Page<'_>, word: &[u8], labels: &Labels<'_>, states: &[u16])
    requires labels { ShowsAll labels.now states.now }
    requires room { Holds page.old (state_lines word.now (label_of labels.now) states.now) }
    ensures { Adds page.old page.new (state_lines word.now (label_of labels.now) states.now) }
{
    for &s in states {
        put_state(page, word, labels, s);
    }
}

#[tactic(auto, using(page::proofs::Written::laws), unfolding(crate::specs::Report::state_line))]
fn put_state(page: &mut Page<'_>, word: &[u8], labels: &Labels<'_>, s: u16)
    requires label { Labelled labels.now s }
    requires room { Holds page.old (state_line word.now (label_of labels.now s)) }
    ensures { Adds page.old page.new (state_line word.now (label_of labels.now s)) }
{
    page.put(word);
    page.put(labels.label(s));
    page.put(b"\n");
}
