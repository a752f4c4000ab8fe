// replay WORKERS TURNS: repeats a finding turn by turn. Reads a full-size state list from standard input, and prints what came of the run and where
// each worker stands.
#![tactic(auto)]

ghost use Rattle.std.specs.Prelude.{◌≡◌, ◌≤◌, length, IfSome};

use anyhow::{Result, anyhow};
use asked::{Asked, ask};
use programs::{Plan, replay_page};
use std::env::{Env, FillError};

fn main(rt: HostRuntime) -> Result<()> {
    let mut turns = zeroes::<131072>();
    let Some(asked) = words(&rt, &mut turns) else {
        return print(&rt, b"usage\treplay WORKERS TURNS\n");
    };
    let mut text = zeroes::<1048577>();
    let n = input::all(&mut rt.stdin(), &mut text).map_err(|e| anyhow!(
        "replay: standard input: {e}"
    ))?;
    let mut page = [0u8; 196608];
    let plan = match asked.turns {
        Some(count) => Plan::Turns(&turns[..count]),
        None => Plan::Rounds,
    };
    let k = replay_page(&mut page, asked.workers, plan, &text[..n]);
    print(&rt, &page[..k])
}

// What the program's two words ask for, and nothing if there are not just two. The buffer takes the second. A word has as many bytes as Linux lets it have.
fn words(rt: &impl Env, turns: &mut [u8]) -> Option<Asked>
    ensures { IfSome result (λ a. IfSome a.turns (λ count. count ≤ length turns.new)) }
{
    let mut workers = zeroes::<131072>();
    let w = rt.arg(1, &mut workers).ok()?;
    let t = rt.arg(2, turns).ok()?;
    match rt.arg(3, &mut []) {
        Err(FillError::NotPresent) => ask(&workers[..w], &mut turns[..t]),
        _ => None,
    }
}

// The contract gives the length, so that the check need not unfold the array.
fn zeroes<const N: usize>() -> [u8; N]
    ensures { N ≡ length result }
{
    [0; N]
}

fn print(rt: &impl Print, bytes: &[u8]) -> Result<()> {
    rt.write_all(bytes)
        .map_err(|e| anyhow!("replay: standard output: {e}"))
}
