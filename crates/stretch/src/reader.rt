// Handing out the parts of a capture.
ghost use Rattle.std.specs.Prelude.{◌≡◌, ℕ};
ghost use Rattle.stretch.specs.Parts.{parts};
ghost use Rattle.stretch.specs.Laws.{Cut};
ghost use Rattle.stretch.specs.Reads.{coming, Handed, left, bytes_of, Leads};
ghost use Rattle.std.specs.Iterator.{at_most};

use super::part::{Placed, Reader, Stretch};
use super::scan::bytes_ahead;

impl<'a> Stretch<'a> {
    pub fn bytes(self) -> &'a [u8]
        ensures { result.now ≡ bytes_of self.entry }
    {
        match self {
            Stretch::Quiet(bytes)
            | Stretch::Selected(bytes)
            | Stretch::Open(bytes)
            | Stretch::LoneByte(bytes) => bytes,
        }
    }
}

// The first part of what is left.
#[tactic(auto, using(crate::proofs::Fronts::leads, crate::proofs::Fronts::front_quiet, crate::proofs::Fronts::front_open, crate::proofs::Fronts::front_selected))]
fn first_part<'a>(rest: &'a [u8]) -> Stretch<'a>
    ensures { Leads rest.now result }
{
    if rest.len() < 2 {
        return Stretch::LoneByte(rest);
    }
    let quiet = bytes_ahead(0, rest);
    if quiet > 0 {
        return Stretch::Quiet(&rest[..quiet]);
    }
    let raised = bytes_ahead(1, rest);
    if rest.len() - raised < 2 {
        return Stretch::Open(&rest[..raised]);
    }
    Stretch::Selected(&rest[..raised + 2])
}

impl<'a> Reader<'a> {
    pub fn new(capture: &'a [u8]) -> Reader<'a>
        ensures coming { coming result ≡ parts capture.now }
        ensures cut { Cut 0 capture.now (parts capture.now) }
    {
        Reader { capture, place: 0 }
    }
}

impl<'a> Iterator for Reader<'a> {
    type Item = Placed<'a>;

    ghost next_gives = { λ s r t. Handed s r t };

    ghost remaining = { λ s. at_most (left s) };

    fn next(&mut self) -> Option<Placed<'a>> {
        let capture = self.capture;
        let place = self.place;
        if place >= capture.len() {
            return None;
        }
        let stretch = first_part(&capture[place..]);
        self.place = place + stretch.bytes().len();
        Some(Placed {
            first: place / 2,
            stretch,
        })
    }
}
