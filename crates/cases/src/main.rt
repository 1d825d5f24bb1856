// Runs captures on delivered bench parts, each under its name, and then the single calls of a table.
#![tactic(auto)]

use anyhow::Context;
use backing::fault::Fault;
use backing::image::Image;
use backing::row::Backing;
use chip::part::{Bench, Cm01, Cm02, Part};
use chip::places;
use chip::unit::Chip;
use edges_text::{MOST, edges};
use rules::state::{Region, Target};
use std::fs;
use std::io::Write;
use table::{Ask, Kind, Over, Row, TABLE};

mod table;

// What a buffer holds before a call, and what the array of a delivered part holds.
const FILL: u8 = 0xAA;

const BLANK: u8 = 0xFF;

// What lies past a part's cells.
const PAST: u8 = 0xEE;

fn set(bytes: &mut [u8], place: usize, byte: u8) {
    if let Some(cell) = bytes.get_mut(place) {
        *cell = byte;
    }
}

// An image of a delivered part with these two cells, as far as it reaches.
fn lay_part<P: Part>(bytes: &mut [u8], status: u8, lock: u8) {
    let cells = places::cell_count::<P>();
    for (place, byte) in bytes.iter_mut().enumerate() {
        *byte = if place < cells { BLANK } else { PAST };
    }
    for i in 0..16u8 {
        set(bytes, places::cell_of::<P>(Region::Unique, u32::from(i)), i);
    }
    set(bytes, places::base_of::<P>(Target::Status, 0), status);
    set(bytes, places::base_of::<P>(Target::Lock, 0), lock);
}

// A `Display` of faults is no plainer: these words are this program's alone.
fn tell(rt: &HostRuntime, name: &str, says: Result<usize, Fault>) -> anyhow::Result<()> {
    match says {
        Ok(value) => print!(rt; "{name}: value {value}")?,
        Err(fault) => {
            let number = u8::from(fault.refusal);
            let layer = u8::from(fault.layer);
            let record = fault.record;
            print!(rt; "{name}: refused {number} layer {layer} record {record}")?;
        }
    }
    Ok(())
}

// How many bytes of a buffer are as they were, and the first that is neither that nor a blank cell's.
fn tell_buffer(rt: &HostRuntime, buffer: &[u8]) -> anyhow::Result<()> {
    let kept = buffer.iter().filter(|&&byte| byte == FILL).count();
    print!(rt; ", {kept} kept")?;
    let mut places = buffer.iter().enumerate();
    if let Some((place, byte)) = places.find(|&(_, &byte)| byte != FILL && byte != BLANK) {
        print!(rt; ", {byte} at {place}")?;
    }
    Ok(())
}

fn ask<P: Part>(rt: &HostRuntime, row: &Row) -> anyhow::Result<()> {
    let Over(_, length, status, lock) = row.1;
    let mut bytes = vec![in rt.alloc(); 0u8; length]?;
    lay_part::<P>(bytes.as_mut_slice(), status, lock);
    let mut image = Image::new(bytes.as_mut_slice());
    let mut chip: Chip<P, Image> = Chip::new(&mut image);
    // The capture fills its caller's buffer, as C has it.
    let mut answers = [0u8; 200];
    let _ = chip.capture(row.2, &mut answers);
    match row.3 {
        Ask::Event(kind, level) => {
            let says = chip.event(kind, level);
            tell(rt, row.0, says.map(|q| usize::from(u8::from(q))))?;
        }
        Ask::Capture(records, room) => {
            let mut answers = vec![in rt.alloc(); FILL; room]?;
            tell(rt, row.0, chip.capture(records, answers.as_mut_slice()))?;
            tell_buffer(rt, answers.as_slice())?;
        }
        Ask::Copy(page, room, place) => {
            let mut buffer = vec![in rt.alloc(); FILL; room]?;
            tell(
                rt,
                row.0,
                chip.page_copy(page, buffer.as_mut_slice(), place),
            )?;
            tell_buffer(rt, buffer.as_slice())?;
        }
    }
    println!(rt; "")?;
    Ok(())
}

fn run_row(rt: &HostRuntime, row: &Row) -> anyhow::Result<()> {
    match row.1.0 {
        Kind::Bench => ask::<Bench>(rt, row),
        Kind::Cm01 => ask::<Cm01>(rt, row),
        Kind::Cm02 => ask::<Cm02>(rt, row),
    }
}

// One line of the index: a capture's name, and what it shows.
fn run_case(rt: &HostRuntime, line: &str, text: &mut [u8]) -> anyhow::Result<()> {
    let name = line
        .split(':')
        .next()
        .context("an empty line in the index")?;
    let path = format!(in rt.alloc(); "{name}.cap")?;
    let input = fs::read(rt, path.as_str())?;
    println!(rt; "{line}")?;
    let n = edges(input.as_slice(), text);
    rt.stdout().write_all(&text[..n])?;
    Ok(())
}

fn main(rt: HostRuntime) -> anyhow::Result<()> {
    let index = fs::read_to_string(&rt, "index")?;
    // The text of `edges` fills its caller's buffer, as C has it.
    let mut text = vec![in rt.alloc(); 0u8; MOST]?;
    for line in index.as_str().lines() {
        run_case(&rt, line, text.as_mut_slice())?;
    }
    for row in &TABLE {
        run_row(&rt, row)?;
    }
    Ok(())
}
