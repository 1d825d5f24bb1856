// Runs two captures, each on a delivered bench part of its own, and tells whether they leave the same chip.
#![tactic(auto)]

use anyhow::anyhow;
use comparing::compare;
use comparing::telling::tell;
use std::io::Write;
use std::{env, fs};

fn load(rt: &HostRuntime, path: &str) -> anyhow::Result<Vec<u8>> {
    fs::read(rt, path).try_map_err(|error| Ok(anyhow!(format!(in rt.alloc(); "{path}: {error}")?)))
}

fn main(rt: HostRuntime) -> anyhow::Result<()> {
    let mut args = env::args(&rt)?;
    let _ = args.next();
    let (Some(first), Some(second), None) = (args.next(), args.next(), args.next()) else {
        return Err(anyhow!("usage: compare FIRST SECOND"));
    };
    let first = load(&rt, first.as_str())?;
    let second = load(&rt, second.as_str())?;
    let records = first.len().max(second.len()) / 2;
    // The captures fill their caller's buffer, as C has it.
    let mut answers = vec![in rt.alloc(); 0u8; records]?;
    let report = compare(first.as_slice(), second.as_slice(), answers.as_mut_slice());
    // The report fills its caller's buffer, as C has it.
    let mut text = [0u8; 192];
    let n = tell(&mut text, &report);
    rt.stdout().write_all(&text[..n])?;
    Ok(())
}
