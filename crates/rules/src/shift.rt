// The output side: the bit that a fall of C shifts, and Q.
ghost use Rattle.std.specs.Prelude.{◌≡◌};
ghost use Rattle.rules.specs.Tables.{level_number, bit_of, level_of, status_byte};
ghost use Rattle.rules.specs.Rules.{shift_out, seen};

use super::page::keep;
use super::state::{Level, Shift};

impl From<Level> for u8 {
    ghost from_gives = { λ level n. n ≡ level_number level };

    fn from(level: Level) -> u8 {
        level as u8
    }
}

// Bit k of a byte, the highest first.
pub(crate) fn bit(byte: u8, k: u8) -> Level
    ensures { result ≡ level_of (bit_of byte k) }
{
    if (byte >> 7u8.saturating_sub(k)) % 2 == 0 {
        Level::Low
    } else {
        Level::High
    }
}

// What RDSR puts out; `status` is the status cell.
pub fn status_byte(status: u8, wel: bool, running: bool) -> u8
    ensures { result ≡ status_byte status wel running }
{
    keep(status) + 2 * u8::from(wel) + u8::from(running)
}

impl Shift {
    // The output side while S is high.
    pub const AT_REST: Shift = Shift {
        held: false,
        shown: Level::Float,
        sample: 0,
    };

    pub fn out(&mut self, held: bool, fresh: u8, k: u8)
        ensures { self.new ≡ shift_out held self.old.sample fresh k }
    {
        if k == 0 {
            self.sample = fresh;
        }
        self.shown = bit(self.sample, k);
        self.held = held;
    }

    pub fn seen(&self) -> Level
        ensures { result ≡ seen self.now }
    {
        if self.held { Level::Float } else { self.shown }
    }
}
