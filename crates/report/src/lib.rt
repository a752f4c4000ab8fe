// The lines that the programs print, written on a page: 01 "The program", and those of `replay`.
#![tactic(auto)]

mod labels;
mod workers;

ghost use Rattle.std.specs.Prelude.{◌++◌};
ghost use Rattle.ends.specs.Told.{told};
ghost use Rattle.page.specs.Page.{Holds, Adds};
ghost use Rattle.statelist.specs.Told.{told as told_reading};
ghost use Rattle.report.specs.Shows.{label_of, Shows, ShowsAll, ShowsWorkers, ShowsEnd};
ghost use Rattle.report.specs.Report.{refused_line, reading_line, tally_line, cycle_lines, run_lines, used_lines, end_lines};

use ends::Outcome;
pub use labels::Labels;
use labels::put_states;
use limits::RunError;
use moves::Tally;
use page::Page;
use refusals::Refusal;
use statelist::{ReadError, Size};
use workers::put_workers;

#[tactic(auto, unfolding(crate::specs::Report::refused_line))]
pub fn put_refusal(page: &mut Page<'_>, number: u64, line: u64)
    requires { Holds page.old (refused_line number line) }
    ensures { Adds page.old page.new (refused_line number line) }
{
    page.put_numbers(b"refused", &[number, line]);
}

fn put_refused(page: &mut Page<'_>, refusal: Refusal)
    requires { Holds page.old (refused_line refusal.number refusal.line) }
    ensures { Adds page.old page.new (refused_line refusal.number refusal.line) }
{
    put_refusal(page, u64::from(refusal.number), refusal.line as u64);
}

// The refusal that a reading came to; nothing for a graph.
#[tactic(auto, using(page::proofs::Written::laws))]
pub fn put_reading(page: &mut Page<'_>, reading: Result<Size, ReadError>)
    requires { Holds page.old (reading_line (told_reading reading)) }
    ensures { Adds page.old page.new (reading_line (told_reading reading)) }
{
    if let Err(error) = reading {
        put_refused(page, error.into());
    }
}

// What a run came to: the answer with stem and loop, and the tally; or the refusal.
pub fn put_run(
    page: &mut Page<'_>,
    labels: &Labels<'_>,
    lasso: &[u16],
    outcome: Result<Outcome, RunError>,
    tally: Tally,
)
    requires labels { Shows labels.now lasso.now (told outcome) }
    requires room { Holds page.old (run_lines (label_of labels.now) lasso.now (told outcome) tally) }
    ensures { Adds page.old page.new (run_lines (label_of labels.now) lasso.now (told outcome) tally) }
{
    match outcome {
        Ok(Outcome::Cycle { stem, loop_, .. }) => {
            let (stem, rest) = lasso.split_at(stem);
            put_cycle(page, labels, stem, &rest[..loop_], tally);
        }
        Ok(Outcome::None { .. }) => put_answer(page, b"answer\tnone\n", tally),
        Ok(Outcome::Undecided { .. }) => put_answer(page, b"answer\tundecided\n", tally),
        Err(error) => put_refused(page, error.into()),
    }
}

#[tactic(auto, using(page::proofs::Written::laws), unfolding(crate::specs::Report::cycle_lines))]
fn put_cycle(page: &mut Page<'_>, labels: &Labels<'_>, stem: &[u16], ring: &[u16], tally: Tally)
    requires stem { ShowsAll labels.now stem.now }
    requires ring { ShowsAll labels.now ring.now }
    requires room { Holds page.old (cycle_lines (label_of labels.now) stem.now ring.now tally) }
    ensures { Adds page.old page.new (cycle_lines (label_of labels.now) stem.now ring.now tally) }
{
    page.put(b"answer\tcycle\n");
    put_states(page, b"stem\t", labels, stem);
    put_states(page, b"loop\t", labels, ring);
    put_tally(page, tally);
}

#[tactic(auto, using(page::proofs::Written::laws))]
fn put_answer(page: &mut Page<'_>, answer: &[u8], tally: Tally)
    requires { Holds page.old (answer.now ++ tally_line tally) }
    ensures { Adds page.old page.new (answer.now ++ tally_line tally) }
{
    page.put(answer);
    put_tally(page, tally);
}

#[tactic(auto, unfolding(crate::specs::Report::tally_line))]
fn put_tally(page: &mut Page<'_>, tally: Tally)
    requires { Holds page.old (tally_line tally) }
    ensures { Adds page.old page.new (tally_line tally) }
{
    page.put_numbers(
        b"tally",
        &[tally.outer, tally.inner, tally.waits, tally.moves],
    );
}

// What `replay` adds to an answer: the turns used, and each of p workers; nothing to a refusal. The room is the form of a machine of n states, two arguments as for
// `own_at`.
#[tactic(auto, using(page::proofs::Written::laws))]
pub fn put_end(
    page: &mut Page<'_>,
    labels: &Labels<'_>,
    room: &[u16],
    n: usize,
    p: usize,
    outcome: Result<Outcome, RunError>,
)
    requires labels { ShowsEnd labels.now room.now n p (told outcome) }
    requires room { Holds page.old (end_lines (label_of labels.now) room.now n p (told outcome)) }
    ensures { Adds page.old page.new (end_lines (label_of labels.now) room.now n p (told outcome)) }
{
    match outcome {
        Ok(Outcome::Cycle { used, .. })
        | Ok(Outcome::None { used })
        | Ok(Outcome::Undecided { used }) => { put_used(page, labels, room, n, p, used) }
        Err(_) => {}
    }
}

// Room and n: as for `own_at`.
#[tactic(auto, using(page::proofs::Written::laws), unfolding(crate::specs::Report::used_lines))]
fn put_used(page: &mut Page<'_>, labels: &Labels<'_>, room: &[u16], n: usize, p: usize, used: usize)
    requires labels { ShowsWorkers labels.now room.now n p }
    requires room { Holds page.old (used_lines (label_of labels.now) room.now n p used) }
    ensures { Adds page.old page.new (used_lines (label_of labels.now) room.now n p used) }
{
    page.put_numbers(b"used", &[used as u64]);
    put_workers(page, labels, room, n, p);
}
