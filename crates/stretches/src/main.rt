// Lists the parts of the capture on standard input.
#![tactic(auto)]

use listing::listing;
use std::io::{Read, Write};

fn main(rt: HostRuntime) -> anyhow::Result<()> {
    let mut capture = Vec::new(rt.alloc());
    rt.stdin().read_to_end(&mut capture)?;
    let text = listing(rt.alloc(), capture.as_slice())?;
    rt.stdout().write_all(text.as_slice())?;
    Ok(())
}
