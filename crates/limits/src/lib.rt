// Refusals 9 to 13, in 01's order: a run checks them before its first move. And which worker makes each turn.
#![tactic(auto)]

ghost use Rattle.std.specs.Prelude.{◌≡◌, ◌≤◌, ◌<◌, MatchResult};
ghost use Rattle.moves.specs.Room.{room_size};
ghost use Rattle.limits.specs.Plans.{listed, next_in};
ghost use Rattle.limits.specs.Refusals.{most_workers, workers_fit, turns_fit, refusal_of, number_of, Passed, usual};

use graphs::Graph;
use moves::stretch_at;

// Why a run is refused, with 01's number.
#[derive(Clone, Copy, Debug, PartialEq, Eq)]
pub enum RunError {
    NoWorkers = 9,
    NoGraph = 10,
    RoomShort = 11,
    LassoShort = 12,
    NoSuchWorker = 13,
}

impl RunError {
    // 01's number. A name tells more here than a conversion.
    pub fn number(self) -> u32
        ensures { result ≡ number_of self }
    {
        self as u32
    }
}

// Which worker makes each turn.
#[derive(Clone, Copy, Debug, PartialEq, Eq)]
pub enum Plan<'a> {
    // the workers of this list, one after the other
    Turns(&'a [u8]),
    // 01: "turns 0, 1, .., P−1 repeated"
    Rounds,
}

impl Plan<'_> {
    // The worker of the turn after `used` turns, if there is one.
    pub fn next(&self, workers: usize, used: usize) -> Option<usize>
        requires { 0 < workers }
        ensures { result ≡ next_in self.now workers used }
    {
        match self {
            Plan::Turns(turns) => turns.get(used).map(|&worker| usize::from(worker)),
            Plan::Rounds => Some(used % workers),
        }
    }

    // Whether each turn of the list names a worker.
    #[tactic(auto, unfolding(graphs::specs::Lists::all))]
    fn fits(&self, workers: usize) -> bool
        ensures { result ≡ turns_fit (listed self.now) workers }
    {
        match self {
            Plan::Turns(turns) => turns.iter().all(|&worker| usize::from(worker) < workers),
            Plan::Rounds => true,
        }
    }
}

// The most workers that a run has.
pub const MOST_WORKERS: usize = 8;

fn workers_fit(workers: usize) -> bool
    ensures { result ≡ workers_fit workers }
{
    (1..=MOST_WORKERS).contains(&workers)
}

// The words of the room that a run needs: as many as stand before the stretch of a worker after the last.
pub fn room_size(n: usize, workers: usize) -> usize
    requires { (n ≤ 4096) × (workers ≤ most_workers) }
    ensures { result ≡ room_size n workers }
{
    stretch_at(n, workers)
}

// The graph of a run that is not refused. Its lists are three arguments, since they may be no graph.
#[tactic(auto, using(crate::proofs::Refused::few), unfolding(crate::specs::Refusals::refusal_of))]
pub fn check<'a>(
    room: usize,
    lasso: usize,
    plan: Plan<'_>,
    offsets: &'a [u16],
    targets: &'a [u16],
    flags: &'a [u16],
    workers: usize,
) -> Result<Graph<'a>, RunError>
    ensures { MatchResult result
        (λ g. Passed g room lasso (listed plan.entry) offsets.now targets.now flags.now workers)
        (λ e. refusal_of room lasso (listed plan.entry) offsets.now targets.now flags.now workers
        ≡ number_of e) }
{
    if !workers_fit(workers) {
        return Err(RunError::NoWorkers);
    }
    let graph = Graph::new(offsets, targets, flags).ok_or(RunError::NoGraph)?;
    let n = graph.states();
    if room < room_size(n, workers) {
        return Err(RunError::RoomShort);
    }
    if lasso < 2 * n {
        return Err(RunError::LassoShort);
    }
    if !plan.fits(workers) {
        return Err(RunError::NoSuchWorker);
    }
    Ok(graph)
}

// 01: "worker count 0 .. means the house's usual, two"
#[tactic(auto, unfolding(crate::specs::Refusals::usual))]
pub fn usual(workers: usize) -> usize
    ensures { result ≡ usual workers }
{
    if workers == 0 { 2 } else { workers }
}
