// The text that lists the parts of a capture.
#![tactic(auto)]

ghost use Rattle.std.specs.Prelude.{◌≡◌, ◌+◌, ◌≤◌, length, IfOk};
ghost use Rattle.stretch.specs.Reads.{shown, shown_as};
ghost use Rattle.text.specs.Text.{Fills};
ghost use Rattle.listing.specs.Listing.{word_of, row_of, line_of, last_line, listing_of};

use std::alloc::{AllocError, Global};
use stretch::part::{Placed, Reader, Stretch};
use text::writer::Writer;

// No line is longer.
const LONGEST: usize = 64;

// A `Display` is no plainer: a line is laid as bytes, with no formatter.
fn word(stretch: Stretch) -> &'static [u8]
    ensures { result.now ≡ word_of (shown_as 0 stretch.entry).kind }
{
    match stretch {
        Stretch::Quiet(_) => b"quiet",
        Stretch::Selected(_) => b"selected",
        Stretch::Open(_) => b"open",
        Stretch::LoneByte(_) => b"lone",
    }
}

// A word and two numbers as a line, cut off at the buffer's end; answers how many bytes it wrote. The buffer is the
// caller's, here and below: lines are to be had with no heap.
#[tactic(auto, using(crate::proofs::Lines::row_short))]
fn row(out: &mut [u8], word: &[u8], first: usize, count: usize) -> usize
    ensures fills { Fills out.old (row_of word.now first count) result out.new }
    ensures short { length (row_of word.now first count) ≤ length word.now + 43 }
{
    let mut writer = Writer::new(out);
    writer.bytes(word);
    writer.bytes(b" ");
    writer.number(first);
    writer.bytes(b" ");
    writer.number(count);
    writer.bytes(b"\n");
    writer.written()
}

// A part's line, likewise.
pub fn line(out: &mut [u8], part: Placed) -> usize
    ensures fills { Fills out.old (line_of (shown part.entry)) result out.new }
    ensures short { length (line_of (shown part.entry)) ≤ 64 }
{
    let count = part.stretch.bytes().len() / 2;
    row(out, word(part.stretch), part.first, count)
}

// The last line, likewise.
#[tactic(auto, using(crate::proofs::Lines::last_short))]
pub fn closing(out: &mut [u8], parts: usize, records: usize) -> usize
    ensures fills { Fills out.old (last_line parts records) result out.new }
    ensures short { length (last_line parts records) ≤ 64 }
{
    let mut writer = Writer::new(out);
    writer.number(parts);
    writer.bytes(b" parts, ");
    writer.number(records);
    writer.bytes(b" records\n");
    writer.written()
}

// A line for each part of the capture, and the last line.
#[tactic(auto, using(crate::proofs::Lines::pushed, crate::proofs::Runs::few), unfolding(crate::specs::Listing::listing_of))]
pub fn listing(heap: Global, capture: &[u8]) -> Result<Vec<u8>, AllocError>
    ensures { IfOk result (λ v. v.items ≡ listing_of capture.now) }
{
    let mut out = Vec::new(heap);
    // Lines are laid into fixed memory, since `line` and `closing` serve callers with no heap too.
    let mut buffer = [0u8; LONGEST];
    // An `enumerate` is no plainer: its count ends with the loop, and the last line wants it.
    let mut parts: usize = 0;
    for part in Reader::new(capture) {
        let n = line(&mut buffer, part);
        out.extend_from_slice(&buffer[..n])?;
        parts += 1;
    }
    let n = closing(&mut buffer, parts, capture.len() / 2);
    out.extend_from_slice(&buffer[..n])?;
    Ok(out)
}
