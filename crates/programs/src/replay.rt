// All that `replay` prints: a full-size list, a run by a plan, the turns used, and where each worker stands.
ghost use Rattle.std.specs.Prelude.{◌≡◌, ◌≤◌, ◌+◌, length};
ghost use Rattle.limits.specs.Plans.{listed};
ghost use Rattle.page.specs.Page.{Adds, written, puts};
ghost use Rattle.search.specs.Outcomes.{lent};
ghost use Rattle.programs.specs.Replay.{ending, ran, named, replay_lines, replayed};

use crate::list::StateList;
use limits::{Plan, usual};
use page::Page;
use report::{put_end, put_reading, put_run};
use search::{Counted, counted_run, counted_run_to_end};
use statelist::read;

// Writes what is to be printed for a text at the front of the page, and answers how long it is.
pub fn replay_page(page: &mut [u8; 196608], workers: usize, plan: Plan<'_>, text: &[u8]) -> usize
    ensures { written result page.new
        ≡ puts page.old 0 (replayed (ending plan.entry) (listed plan.entry) workers text.now) }
{
    let mut page = Page {
        bytes: page,
        len: 0,
    };
    put_replayed(&mut page, workers, plan, text);
    page.len
}

fn put_replayed(page: &mut Page<'_>, workers: usize, plan: Plan<'_>, text: &[u8])
    requires { page.old.len + 196608 ≤ length page.old.bytes.now }
    ensures { Adds page.old page.new (replayed (ending plan.entry) (listed plan.entry) workers text.now) }
{
    let mut offsets = [0; 4097];
    let mut targets = [0; 16384];
    let mut flags = [0; 4096];
    let mut places = [0; 8192];
    match read(&mut offsets, &mut targets, &mut flags, &mut places, text) {
        Ok(size) => {
            let list = StateList::new(&offsets, &targets, &flags, &places, text, size);
            put_replay_lines(page, workers, plan, &list);
        }
        Err(error) => put_reading(page, Err(error)),
    }
}

fn put_replay_lines(page: &mut Page<'_>, workers: usize, plan: Plan<'_>, list: &StateList<'_>)
    requires { page.old.len + 196608 ≤ length page.old.bytes.now }
    ensures { Adds page.old page.new (replay_lines (ending plan.entry) (listed plan.entry) workers
        list.now.labels.text.now list.now.offsets.now list.now.targets.now list.now.flags.now
        list.now.labels.places.now) }
{
    let mut room = [0; 172064];
    let mut lasso = [0; 8192];
    let Counted { outcome, tally } = run(&mut room, &mut lasso, workers, plan, list);
    put_run(page, &list.labels, &lasso, outcome, tally);
    put_end(
        page,
        &list.labels,
        &room,
        list.flags.len(),
        workers_of(workers, plan),
        outcome,
    );
}

// By the two names that search has for its one run.
#[tactic(auto, unfolding(crate::specs::Replay::ran))]
fn run(
    room: &mut [u16],
    lasso: &mut [u16],
    workers: usize,
    plan: Plan<'_>,
    list: &StateList<'_>,
) -> Counted
    ensures { lent result.outcome room.new lasso.new result.tally
        ≡ ran (ending plan.entry) (listed plan.entry) workers
        list.now.offsets.now list.now.targets.now list.now.flags.now room.old lasso.old }
{
    match plan {
        Plan::Turns(turns) => counted_run(
            room,
            lasso,
            turns,
            list.offsets,
            list.targets,
            list.flags,
            workers,
        ),
        Plan::Rounds => counted_run_to_end(
            room,
            lasso,
            list.offsets,
            list.targets,
            list.flags,
            workers,
        ),
    }
}

// How many workers run: 0 are the usual two in a run to the end.
#[tactic(auto, unfolding(crate::specs::Replay::named))]
fn workers_of(workers: usize, plan: Plan<'_>) -> usize
    ensures { result ≡ named (ending plan.entry) workers }
{
    match plan {
        Plan::Turns(_) => workers,
        Plan::Rounds => usual(workers),
    }
}
