// What a rise of S asks of a write.
ghost use Rattle.std.specs.Prelude.{◌≡◌};
ghost use Rattle.rules.specs.Shape.{Shape, array_len};
ghost use Rattle.rules.specs.Tables.{bp, fence, page_open, page_of, status_open, ident_open, locks};
ghost use Rattle.rules.specs.Rules.{counts};
ghost use Rattle.rules.specs.Protection.{field};

use super::state::{Got, Page, Target};

// The part of the array that BP1 BP0 of a status cell protect, from its end on.
#[derive(Clone, Copy, PartialEq)]
pub(crate) enum Protected {
    Nothing,
    Quarter,
    Half,
    Whole,
}

impl From<u8> for Protected {
    ghost from_gives = { λ status part. field part ≡ bp status };

    fn from(status: u8) -> Protected {
        match status / 4 % 4 {
            0 => Protected::Nothing,
            1 => Protected::Quarter,
            2 => Protected::Half,
            _ => Protected::Whole,
        }
    }
}

// The first protected place of an array of this length.
pub fn protected_from(array: usize, status: u8) -> usize
    ensures { (p : Shape) → array ≡ array_len p → result ≡ fence p status }
{
    match Protected::from(status) {
        Protected::Nothing => array,
        Protected::Quarter => array - array / 4,
        Protected::Half => array / 2,
        Protected::Whole => 0,
    }
}

// WRSR, with W at this level.
pub(crate) fn opens_status(status: u8, protect: bool) -> bool
    ensures { result ≡ status_open status protect }
{
    status < 128 || protect
}

// WRID. `status` and `lock` stay two bytes, here and below: a struct of them would be taken apart at once.
pub(crate) fn opens_ident(status: u8, lock: u8) -> bool
    ensures { result ≡ ident_open status lock }
{
    lock == 0 && Protected::from(status) != Protected::Whole
}

// LID with this data byte.
pub(crate) fn can_lock(status: u8, byte: u8) -> bool
    ensures { result ≡ locks status byte }
{
    byte / 2 % 2 == 1 && Protected::from(status) != Protected::Whole
}

impl Page {
    // Whether the write counts; `unprotected` says so of the array page at its address.
    pub fn counts(&self, unprotected: bool, protect: bool, status: u8, lock: u8) -> bool
        ensures { (p : Shape) → unprotected ≡ page_open p status (page_of p self.now.start) →
            result ≡ counts p protect status lock self.now }
    {
        if !self.wel || self.bit != 0 {
            return false;
        }
        match (self.target, self.got) {
            (_, Got::Nothing) => false,
            (Target::Array, _) => unprotected,
            (Target::Ident, _) => opens_ident(status, lock),
            (Target::Status, Got::One) => opens_status(status, protect),
            (Target::Lock, Got::One) => can_lock(status, self.head()),
            (_, Got::More) => false,
        }
    }
}
