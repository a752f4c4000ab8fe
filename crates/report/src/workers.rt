// A line for each worker: its number, place and stack depths, and its seed's label.
ghost use Rattle.std.specs.Prelude.{◌≡◌};
ghost use Rattle.moves.specs.Own.{own_at};
ghost use Rattle.page.specs.Page.{Holds, Adds};
ghost use Rattle.report.specs.Shows.{label_of, Seeded, ShowsWorkers};
ghost use Rattle.report.specs.Report.{place_field, label_field, seed_field, worker_line, worker_lines};

use crate::Labels;
use moves::{Own, Place, own_at};
use page::Page;

// The workers below p. The room is the form of a machine of n states, two arguments as for `own_at`.
#[tactic(auto, using(crate::proofs::Below::laws))]
pub fn put_workers(page: &mut Page<'_>, labels: &Labels<'_>, room: &[u16], n: usize, p: usize)
    requires labels { ShowsWorkers labels.now room.now n p }
    requires room { Holds page.old (worker_lines (label_of labels.now) (own_at room.now n) p) }
    ensures { Adds page.old page.new (worker_lines (label_of labels.now) (own_at room.now n) p) }
{
    for q in 0..p {
        put_worker(page, labels, q, own_at(room, n, q));
    }
}

#[tactic(auto, using(page::proofs::Written::laws), unfolding(crate::specs::Report::worker_line))]
fn put_worker(page: &mut Page<'_>, labels: &Labels<'_>, q: usize, own: Own)
    requires seed { Seeded labels.now own.place }
    requires room { Holds page.old (worker_line (label_of labels.now) q own) }
    ensures { Adds page.old page.new (worker_line (label_of labels.now) q own) }
{
    page.put(b"worker");
    page.put_fields(&[q as u64]);
    page.put(place_field(own.place));
    page.put_fields(&[u64::from(own.outer), u64::from(own.inner)]);
    put_seed(page, labels, own.place);
    page.put(b"\n");
}

fn place_field(place: Place) -> &'static [u8]
    ensures { result.now ≡ place_field place }
{
    match place {
        Place::Fresh => b"\tfresh",
        Place::Outer => b"\touter",
        Place::Inner(_) => b"\tinner",
        Place::Waiting(_) => b"\twaiting",
        Place::Done => b"\tdone",
    }
}

#[tactic(auto, using(page::proofs::Written::laws), unfolding(crate::specs::Report::label_field))]
fn put_seed(page: &mut Page<'_>, labels: &Labels<'_>, place: Place)
    requires seed { Seeded labels.now place }
    requires room { Holds page.old (seed_field (label_of labels.now) place) }
    ensures { Adds page.old page.new (seed_field (label_of labels.now) place) }
{
    match place {
        Place::Inner(seed) | Place::Waiting(seed) => {
            page.put(b"\t");
            page.put(labels.label(seed));
        }
        Place::Fresh | Place::Outer | Place::Done => {}
    }
}
