// 01 "The program": a text of at most 32,768 bytes, rooms for 256 states and 1,024 transitions, a run to the end with two workers.
ghost use Rattle.std.specs.Prelude.{◌≡◌, ◌≤◌, ◌+◌, length};
ghost use Rattle.page.specs.Page.{Adds, written, puts};
ghost use Rattle.programs.specs.Skiffplank.{search_lines, searched};

use crate::list::StateList;
use page::Page;
use report::{put_reading, put_run};
use search::{Counted, counted_run_to_end};
use statelist::{ReadError, read};

// The most bytes that the program takes.
const MOST_INPUT: usize = 32768;

// Writes what is to be printed for a text at the front of the page, and answers how long it is.
pub fn search_page(page: &mut [u8; 16384], text: &[u8]) -> usize
    ensures { written result page.new ≡ puts page.old 0 (searched text.now) }
{
    let mut page = Page {
        bytes: page,
        len: 0,
    };
    put_searched(&mut page, text);
    page.len
}

// Not one function with `put_replayed` over the number of states: offsets are one more, and an array's length can't be computed from a parameter.
fn put_searched(page: &mut Page<'_>, text: &[u8])
    requires { page.old.len + 16384 ≤ length page.old.bytes.now }
    ensures { Adds page.old page.new (searched text.now) }
{
    if MOST_INPUT < text.len() {
        return put_reading(page, Err(ReadError::TooLong));
    }
    let mut offsets = [0; 257];
    let mut targets = [0; 1024];
    let mut flags = [0; 256];
    let mut places = [0; 512];
    match read(&mut offsets, &mut targets, &mut flags, &mut places, text) {
        Ok(size) => {
            let list = StateList::new(&offsets, &targets, &flags, &places, text, size);
            put_search_lines(page, &list);
        }
        Err(error) => put_reading(page, Err(error)),
    }
}

fn put_search_lines(page: &mut Page<'_>, list: &StateList<'_>)
    requires { page.old.len + 16384 ≤ length page.old.bytes.now }
    ensures { Adds page.old page.new (search_lines list.now.labels.text.now
        list.now.offsets.now list.now.targets.now list.now.flags.now list.now.labels.places.now) }
{
    let mut room = [0; 3080];
    let mut lasso = [0; 512];
    let Counted { outcome, tally } = counted_run_to_end(
        &mut room,
        &mut lasso,
        list.offsets,
        list.targets,
        list.flags,
        2,
    );
    put_run(page, &list.labels, &lasso, outcome, tally);
}
