// A report as text.
ghost use Rattle.std.specs.Prelude.{◌≡◌, ℕ, ◌+◌, ◌≤◌, List, ◌++◌, length};
ghost use Rattle.text.specs.Text.{Fills};
ghost use Rattle.text.specs.Writers.{Holds};
ghost use Rattle.comparing.specs.Telling.{capture_line, comparison_line, words_of, told};

use super::Report;
use backing::fault::Fault;
use chip::sameness::Comparison;
use text::writer::Writer;

// The words of a refusal stand in `edges_text` too, and the two clauses on the writer in three functions: see there.
fn capture_line<'a>(writer: &mut Writer<'a>, whose: &[u8], answer: Result<usize, Fault>)
    ensures holds { (b t : List ℕ) → Holds b t writer.old → Holds b (t ++ capture_line whose.now answer) writer.new }
    ensures kept { writer.new.out.ghost_name ≡ writer.old.out.ghost_name }
    ensures short { length (capture_line whose.now answer) ≤ length whose.now + 53 }
{
    writer.bytes(whose);
    match answer {
        Ok(count) => {
            writer.number(count);
            writer.bytes(b" records\n");
        }
        Err(fault) => {
            writer.bytes(b"refused ");
            writer.number(usize::from(u8::from(fault.refusal)));
            writer.bytes(b" at ");
            writer.number(fault.record);
            writer.bytes(b"\n");
        }
    }
}

// A `Display` is no plainer: a report is laid as bytes, with no formatter.
fn words(comparison: Comparison) -> &'static [u8]
    ensures { result.now ≡ words_of comparison }
{
    match comparison {
        Comparison::Selected => b"not compared: selected\n",
        Comparison::Running => b"not compared: cycle running\n",
        Comparison::Same => b"same\n",
        Comparison::Different => b"different\n",
    }
}

fn comparison_line<'a>(writer: &mut Writer<'a>, answer: Result<Comparison, Fault>)
    ensures holds { (b t : List ℕ) → Holds b t writer.old → Holds b (t ++ comparison_line answer) writer.new }
    ensures kept { writer.new.out.ghost_name ≡ writer.old.out.ghost_name }
{
    match answer {
        Ok(comparison) => writer.bytes(words(comparison)),
        Err(fault) => {
            writer.bytes(b"not compared: refused ");
            writer.number(usize::from(u8::from(fault.refusal)));
            writer.bytes(b"\n");
        }
    }
}

// Lays the report's three lines, cut off at the buffer's end; answers how many bytes it wrote. No heap: the buffer is the
// caller's.
pub fn tell(out: &mut [u8], report: &Report) -> usize
    ensures fills { Fills out.old (told report.now) result out.new }
    ensures short { length (told report.now) ≤ 192 }
{
    let mut writer = Writer::new(out);
    capture_line(&mut writer, b"first: ", report.first);
    capture_line(&mut writer, b"second: ", report.second);
    comparison_line(&mut writer, report.comparison);
    writer.written()
}
