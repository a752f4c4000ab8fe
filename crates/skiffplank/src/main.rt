// 01 "The program": reads state-list text from standard input, looks for a loop through a mark, and prints what it finds.
#![tactic(auto)]

use anyhow::{Result, anyhow};
use programs::search_page;

fn main(rt: HostRuntime) -> Result<()> {
    let mut text = [0u8; 32769];
    let n = input::all(&mut rt.stdin(), &mut text).map_err(|e| anyhow!(
        "skiffplank: standard input: {e}"
    ))?;
    let mut page = [0u8; 16384];
    let k = search_page(&mut page, &text[..n]);
    rt.write_all(&page[..k])
        .map_err(|e| anyhow!("skiffplank: standard output: {e}"))
}
