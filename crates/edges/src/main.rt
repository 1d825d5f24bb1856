// Runs the capture on standard input on a delivered bench part, and prints Q after each record.
#![tactic(auto)]

use edges_text::{MOST, edges};
use std::io::{Read, Write};

fn main(rt: HostRuntime) -> anyhow::Result<()> {
    let mut input = Vec::new(rt.alloc());
    rt.stdin().take(MOST as u64 + 1).read_to_end(&mut input)?;
    // The text fills its caller's buffer, as C has it.
    let mut text = vec![in rt.alloc(); 0u8; MOST]?;
    let n = edges(input.as_slice(), text.as_mut_slice());
    rt.stdout().write_all(&text.as_slice()[..n])?;
    Ok(())
}
