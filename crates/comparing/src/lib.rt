// Two captures, each on a delivered bench part of its own, and whether they leave the same chip.
#![tactic(auto)]

ghost use Rattle.std.specs.Prelude.{◌≡◌, true, length, is_ok};
ghost use Rattle.rules.specs.Calls.{written};
ghost use Rattle.laws.specs.Bench.{bench};
ghost use Rattle.chip.specs.Sameness.{Compared};
ghost use Rattle.comparing.specs.Running.{ran_on, ran};

use backing::fault::Fault;
use backing::image::Image;
use backing::pair::Pair;
use backing::row::Backing;
use chip::delivered::{CELLS, deliver};
use chip::part::Bench;
use chip::sameness::{Comparison, same};
use chip::unit::Chip;

pub mod telling;

// The cells of the first image of a pair.
const CUT: usize = 4096;

// What each capture answers, and how the two chips compare after them.
#[derive(Drop)]
pub struct Report {
    pub first: Result<usize, Fault>,
    pub second: Result<usize, Fault>,
    pub comparison: Result<Comparison, Fault>,
}

// The captures on new chips over two backings.
fn run<A: Backing, B: Backing>(
    a: &mut A,
    b: &mut B,
    first: &[u8],
    second: &[u8],
    answers: &mut [u8],
) -> Report
    ensures first { result.first ≡ (ran_on (A.Backing.row a.old) first.now (length answers.old)).says }
    ensures second { result.second ≡ (ran_on (B.Backing.row b.old) second.now (length answers.old)).says }
    ensures comparison { Compared bench (ran_on (A.Backing.row a.old) first.now (length answers.old)).view (ran_on (B.Backing.row b.old) second.now (length answers.old)).view result.comparison }
    ensures answers { answers.new ≡ written (ran_on (B.Backing.row b.old) second.now (length answers.old)).levels (written (ran_on (A.Backing.row a.old) first.now (length answers.old)).levels answers.old) }
{
    let mut one: Chip<'_, Bench, A> = Chip::new(a);
    let mut other: Chip<'_, Bench, B> = Chip::new(b);
    let first = one.capture(first, answers);
    let second = other.capture(second, answers);
    let comparison = same(&one, &other);
    Report {
        first,
        second,
        comparison,
    }
}

// Runs `first` over one image and `second` over a joined pair of images, and compares the two chips; each capture's
// levels go to the front of `answers`.
pub fn compare(first: &[u8], second: &[u8], answers: &mut [u8]) -> Report
    ensures first { result.first ≡ (ran first.now (length answers.old)).says }
    ensures second { result.second ≡ (ran second.now (length answers.old)).says }
    ensures comparison { Compared bench (ran first.now (length answers.old)).view (ran second.now (length answers.old)).view result.comparison }
    ensures made { is_ok result.comparison ≡ true }
    ensures answers { answers.new ≡ written (ran second.now (length answers.old)).levels (written (ran first.now (length answers.old)).levels answers.old) }
{
    // Fixed memory: a chip needs no heap.
    let mut whole = [0u8; CELLS];
    deliver(&mut whole);
    let mut parted = whole;
    let (low, high) = parted.split_at_mut(CUT);
    let mut image = Image::new(&mut whole);
    let mut pair = Pair::new(Image::new(low), Image::new(high));
    run(&mut image, &mut pair, first, second, answers)
}

#[cfg(test)]
mod tests {
    use super::compare;
    use super::telling::tell;

    // S falls, the eight bits of 06h, S rises.
    const WREN: [u8; 40] = [
        0, 0, 1, 1, 1, 0, 1, 1, 1, 0, 1, 1, 1, 0, 1, 1, 1, 0, 1, 1, 1, 0, 2, 1, 1, 1, 1, 0, 1, 1,
        1, 0, 2, 0, 1, 1, 1, 0, 0, 1,
    ];

    // Whether the two captures, with room for 40 answers, are told in these words.
    fn shows(first: &[u8], second: &[u8], words: &[u8]) -> bool {
        let mut answers = [0u8; 40];
        let report = compare(first, second, &mut answers);
        let mut text = [0u8; 192];
        let n = tell(&mut text, &report);
        n <= 192 && &text[0..n] == words
    }

    #[test]
    fn comparisons(rt: HostRuntime) {
        assert!(rt;
            shows(
                &[2, 1, 2, 0, 3, 0, 3, 1],
                &[],
                b"first: 4 records\nsecond: 0 records\nsame\n",
            )
        );
        assert!(rt;
            shows(
                &[],
                &WREN,
                b"first: 0 records\nsecond: 20 records\ndifferent\n",
            )
        );
        assert!(rt;
            shows(
                &[],
                &[0, 0],
                b"first: 0 records\nsecond: 1 records\nnot compared: selected\n",
            )
        );
        assert!(rt;
            shows(
                &[2, 1, 2, 1],
                &[2, 1],
                b"first: refused 6 at 1\nsecond: 1 records\nsame\n",
            )
        );
    }

    // WREN, and a WRSR of 00h that counts.
    const WRITING: &[u8] =
        b"\x00\x00\x01\x01\x01\x00\x01\x01\x01\x00\x01\x01\x01\x00\x01\x01\x01\x00\x01\x01\x01\x00\x02\x01\x01\x01\x01\x00\x01\x01\x01\x00\x02\x00\x01\x01\x01\x00\x00\x01\x00\x00\x01\x01\x01\x00\x01\x01\x01\x00\x01\x01\x01\x00\x01\x01\x01\x00\x01\x01\x01\x00\x01\x01\x01\x00\x01\x01\x01\x00\x02\x01\x01\x01\x01\x00\x02\x00\x01\x01\x01\x00\x01\x01\x01\x00\x01\x01\x01\x00\x01\x01\x01\x00\x01\x01\x01\x00\x01\x01\x01\x00\x01\x01\x01\x00\x01\x01\x01\x00\x00\x01";

    #[test]
    fn cycle_running(rt: HostRuntime) {
        let mut answers = [0u8; 100];
        let report = compare(WRITING, &WREN, &mut answers);
        let mut text = [0u8; 192];
        let n = tell(&mut text, &report);
        assert!(rt;
            n <= 192
                && &text[0..n]
                    == b"first: 56 records\nsecond: 20 records\nnot compared: cycle running\n".as_slice()
        );
    }
}
