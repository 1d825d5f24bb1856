// A write on its way in: its data bits, and what it puts.
ghost use Rattle.std.specs.Prelude.{◌≡◌, ◌≤◌};
ghost use Rattle.rules.specs.declared.state.Phase.TheVariants.{Input};
ghost use Rattle.rules.specs.Tables.{kept};
ghost use Rattle.rules.specs.Rules.{rolled, empty, one_more, filled, head_byte, pending};

use super::register::push;
use super::state::{Got, Page, Pending, Phase, Target};

// One on, after the last the first.
pub fn roll(at: u8, last: u8) -> u8
    ensures { result ≡ rolled at last }
{
    if at < last { at + 1 } else { 0 }
}

// Bits 7, 3 and 2.
pub fn keep(byte: u8) -> u8
    ensures value { result ≡ kept byte }
    ensures few { result ≤ 140 }
{
    byte / 128 * 128 + byte / 4 % 4 * 4
}

impl Got {
    pub(crate) fn one_more(self) -> Got
        ensures { result ≡ one_more self }
    {
        match self {
            Got::Nothing => Got::One,
            Got::One | Got::More => Got::More,
        }
    }
}

impl Page {
    // `target`, `start`, `at` and `last` travel together only until a page is made, which then holds them: a struct of them
    // is no plainer.
    pub(crate) fn new(target: Target, wel: bool, start: u32, at: u8, last: u8) -> Page
        ensures { result ≡ empty target wel start at last }
    {
        Page {
            target,
            wel,
            start,
            at,
            last,
            bit: 0,
            value: 0,
            got: Got::Nothing,
            bytes: [None; 256],
        }
    }

    pub fn latch(&mut self, d: bool)
        ensures { self.new ≡ filled self.old d }
    {
        let value = push(self.value, d);
        if self.bit < 7 {
            self.bit += 1;
            self.value = value;
        } else {
            self.bytes[self.at as usize] = Some(value);
            self.at = roll(self.at, self.last);
            self.bit = 0;
            self.value = 0;
            self.got = self.got.one_more();
        }
    }

    // The byte at the first place, 0 where it has none.
    pub(crate) fn head(&self) -> u8
        ensures { result ≡ head_byte self.now.bytes }
    {
        self.bytes[0].unwrap_or(0)
    }

    // The write that waits: its bytes, or what its target puts in place of them.
    pub fn pending(&self) -> Pending
        ensures { result ≡ pending self.now }
    {
        let mut bytes = self.bytes;
        match self.target {
            Target::Array | Target::Ident => {}
            Target::Status => bytes[0] = Some(keep(self.head())),
            Target::Lock => bytes[0] = Some(1),
        }
        Pending {
            target: self.target,
            start: self.start,
            bytes,
        }
    }
}

impl Phase {
    // A write begins.
    pub(crate) fn input(target: Target, wel: bool, start: u32, at: u8, last: u8) -> Phase
        ensures { result ≡ Input (empty target wel start at last) }
    {
        Phase::Input(Page::new(target, wel, start, at, last))
    }
}
