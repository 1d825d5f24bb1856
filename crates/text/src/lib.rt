// Text laid into a buffer of the caller's: byte strings and decimal numbers, cut off at the buffer's end.
#![tactic(auto)]

ghost use Rattle.std.specs.Prelude.{◌≡◌, ◌≤◌, length, decimal};
ghost use Rattle.text.specs.Text.{Lays, DigitRule};

pub mod writer;

use itoa::Buffer;

// Lays the text from the place `at` on, and answers how many bytes it wrote. No heap, here and below: the buffer is the
// caller's.
#[tactic(auto, using(crate::proofs::Laying::laid_cut, crate::proofs::Laying::laid_past))]
pub fn lay(out: &mut [u8], at: usize, text: &[u8]) -> usize
    ensures lays { Lays out.old at text.now result out.new }
    ensures past { length out.old ≤ at → out.new ≡ out.old }
{
    if at >= out.len() {
        return 0;
    }
    let n = text.len().min(out.len() - at);
    out[at..at + n].copy_from_slice(&text[..n]);
    n
}

// Lays `n` in decimal from the place `at` on; where it is cut off, its first digits stay.
#[tactic(auto, using(crate::proofs::Spelling::decimal_rule))]
pub fn decimal(out: &mut [u8], at: usize, n: usize) -> usize
    ensures lays { Lays out.old at (decimal n) result out.new }
    ensures rule { DigitRule n (decimal n) }
{
    let mut digits = Buffer::new();
    lay(out, at, digits.format(n).as_bytes())
}

#[cfg(test)]
mod tests {
    use super::decimal;

    // Whether `n`, laid from `at` on into the first `room` of 22 dots, gives `wrote` and `text`.
    fn shows(room: usize, at: usize, n: usize, wrote: usize, text: &[u8; 22]) -> bool {
        let mut dots = [b'.'; 22];
        room <= 22 && decimal(&mut dots[0..room], at, n) == wrote && dots == *text
    }

    #[test]
    fn decimals(rt: HostRuntime) {
        assert!(rt; shows(22, 0, 0, 1, b"0....................."));
        assert!(rt; shows(22, 1, 9, 1, b".9...................."));
        assert!(rt; shows(22, 2, 10, 2, b"..10.................."));
        assert!(rt; shows(22, 0, 99, 2, b"99...................."));
        assert!(rt; shows(22, 0, 100, 3, b"100..................."));
        assert!(rt; shows(22, 1, 18446744073709551615, 20, b".18446744073709551615."));
        assert!(rt; shows(4, 1, 12345, 3, b".123.................."));
        assert!(rt; shows(0, 0, 7, 0, b"......................"));
        assert!(rt; shows(4, 9, 7, 0, b"......................"));
    }
}
