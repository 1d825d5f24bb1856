// The text of a capture run on a delivered bench part.
#![tactic(auto)]

ghost use Rattle.std.specs.Prelude.{◌≡◌, ℕ, List, ◌++◌, map};
ghost use Rattle.rules.specs.declared.state.Level.{Level as Q};
ghost use Rattle.rules.specs.Tables.{level_number};
ghost use Rattle.rules.specs.Calls.{written};
ghost use Rattle.text.specs.Text.{Fills};
ghost use Rattle.text.specs.Writers.{Holds};
ghost use Rattle.edges_text.specs.Edges.{letter, fault_text, lines, taken_of, ran, edges_of};

use backing::fault::Fault;
use backing::refusal::Refusal;
use chip::client::run_on_bytes;
use chip::delivered::{CELLS, deliver};
use chip::part::Bench;
use text::writer::Writer;

// The most bytes that an input may have, and the records in them.
pub const MOST: usize = 60_000;

const RECORDS: usize = 30_000;

// Runs a capture on a delivered bench part.
fn run(input: &[u8], answers: &mut [u8; RECORDS]) -> Result<usize, Fault>
    ensures says { result ≡ (ran input.now).says }
    ensures answers { answers.new ≡ written (ran input.now).levels answers.old }
{
    // Fixed memory: the text needs no heap.
    let mut cells = [0u8; CELLS];
    deliver(&mut cells);
    run_on_bytes::<Bench>(&mut cells, input, answers)
}

// How many records were taken.
fn taken(says: Result<usize, Fault>) -> usize
    ensures { result ≡ taken_of says }
{
    says.unwrap_or_else(|fault| fault.record)
}

// An answer byte's character. No enum stands here: by its format a capture's answer is a number.
fn letter_of(answer: u8) -> u8
    ensures { (q : Q) → answer ≡ level_number q → result ≡ letter q }
{
    match answer {
        0 => b'0',
        1 => b'1',
        _ => b'z',
    }
}

// Turns answer bytes into their characters.
fn spell(answers: &mut [u8])
    ensures { (qs : List Q) → answers.old ≡ map level_number qs → answers.new ≡ map letter qs }
{
    for answer in answers.iter_mut() {
        *answer = letter_of(*answer);
    }
}

// Lays the fault's line, if there is a fault. A report has a line like it: one function for both is no plainer, since only
// `text` lies below both, and would then depend on faults. What it does to the writer stays two clauses, on its text and on
// its buffer: a record of the two would be taken apart wherever it is used.
fn fault_line<'a>(writer: &mut Writer<'a>, says: Result<usize, Fault>)
    ensures holds { (b t : List ℕ) → Holds b t writer.old → Holds b (t ++ fault_text says) writer.new }
    ensures kept { writer.new.out.ghost_name ≡ writer.old.out.ghost_name }
{
    if let Err(fault) = says {
        writer.bytes(b"refused ");
        writer.number(usize::from(u8::from(fault.refusal)));
        writer.bytes(b" at ");
        writer.number(fault.record);
        writer.bytes(b"\n");
    }
}

// Lays line one and the fault's line, cut off at the buffer's end; answers how many bytes it wrote. No heap, here and in
// `edges`: the buffer is the caller's.
fn tell(out: &mut [u8], letters: &[u8], says: Result<usize, Fault>) -> usize
    ensures { Fills out.old (lines letters.now says) result out.new }
{
    let mut writer = Writer::new(out);
    writer.bytes(letters);
    writer.bytes(b"\n");
    fault_line(&mut writer, says);
    writer.written()
}

// The text, cut off at the buffer's end, the rest untouched; answers how many bytes it wrote.
pub fn edges(input: &[u8], out: &mut [u8]) -> usize
    ensures { Fills out.old (edges_of input.now) result out.new }
{
    if input.len() > MOST {
        return tell(out, &[], Err(Fault::from(Refusal::LongInput)));
    }
    // Fixed memory, likewise.
    let mut answers = [0u8; RECORDS];
    let says = run(input, &mut answers);
    let letters = &mut answers[..taken(says)];
    spell(letters);
    tell(out, letters, says)
}

#[cfg(test)]
mod tests {
    use super::{MOST, RECORDS, edges};
    use std::test::Fail;

    // S falls, C rises, and C is to rise again.
    const SIX: [u8; 6] = [0, 0, 1, 1, 1, 1];

    // Whether the text of `input`, cut off at `room`, makes `text` of 20 dots.
    fn shows(input: &[u8], room: usize, wrote: usize, text: &[u8; 20]) -> bool {
        let mut dots = [b'.'; 20];
        room <= 20 && edges(input, &mut dots[0..room]) == wrote && dots == *text
    }

    // Records in which D rises and falls.
    fn swing(bytes: &mut [u8]) {
        for (i, byte) in bytes.iter_mut().enumerate() {
            *byte = [2, 1, 2, 0][i % 4];
        }
    }

    #[test]
    fn texts(rt: HostRuntime) -> Result<(), Fail> {
        let long = vec![in rt.alloc(); 2u8; MOST + 1]?;
        assert!(rt; shows(&[], 20, 1, b"\n..................."));
        assert!(rt; shows(&[0, 0, 7], 20, 17, b"\nrefused 10 at 0\n..."));
        assert!(rt; shows(&SIX, 20, 18, b"zz\nrefused 6 at 2\n.."));
        assert!(rt; shows(&SIX, 18, 18, b"zz\nrefused 6 at 2\n.."));
        assert!(rt; shows(&SIX, 17, 17, b"zz\nrefused 6 at 2..."));
        assert!(rt; shows(&SIX, 12, 12, b"zz\nrefused 6........"));
        assert!(rt; shows(&SIX, 2, 2, b"zz.................."));
        assert!(rt; shows(&SIX, 0, 0, b"...................."));
        assert!(rt; shows(long.as_slice(), 20, 17, b"\nrefused 16 at 0\n..."));
        let mut all = vec![in rt.alloc(); 2u8; MOST]?;
        swing(all.as_mut_slice());
        let mut text = [b'.'; RECORDS + 2];
        assert_eq!(rt; edges(all.as_slice(), &mut text), RECORDS + 1);
        let mut whole = [b'z'; RECORDS + 2];
        whole[RECORDS] = b'\n';
        whole[RECORDS + 1] = b'.';
        assert!(rt; text == whole);
        Ok(())
    }
}
