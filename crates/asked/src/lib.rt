// The two words of `replay`: a worker count; and a turn list, one digit a turn, or `-` for the empty list, or `end`.
#![tactic(auto)]

mod digits;

ghost use Rattle.std.specs.Prelude.{◌≡◌};
ghost use Rattle.asked.specs.Asked.{called, asks};

use digits::{count_of, digits_off, is_number};

// A run by so many workers: to the end, or over so many turns, which now stand at the front of the second word. A number and no slice: the
// contract tells the whole word too, as it is left.
#[derive(Clone, Copy, Debug, PartialEq, Eq)]
pub struct Asked {
    pub workers: usize,
    pub turns: Option<usize>,
}

// Takes the two words. The digits of a turn list become the workers' numbers.
#[tactic(auto, using(crate::proofs::Spelt::bytes_eq_same), unfolding(crate::specs::Asked::asks, crate::specs::Asked::is_end, crate::specs::Asked::is_dash))]
pub fn ask(workers: &[u8], turns: &mut [u8]) -> Option<Asked>
    ensures { called result turns.new ≡ asks workers.now turns.old }
{
    if !is_number(workers) {
        return None;
    }
    let workers = count_of(workers);
    let turns = if &*turns == b"end".as_slice() {
        None
    } else if &*turns == b"-".as_slice() {
        Some(0)
    } else if is_number(turns) {
        digits_off(turns);
        Some(turns.len())
    } else {
        return None;
    };
    Some(Asked { workers, turns })
}
