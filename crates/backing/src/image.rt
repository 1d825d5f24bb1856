// A backing over the caller's bytes.
ghost use Rattle.std.specs.Prelude.{◌≡◌, [], ◌∷◌};
ghost use Rattle.backing.specs.Rows.{imaged, beyond, Reads};
ghost use Rattle.backing.specs.Made.{imaged_bytes};

use super::fault::Fault;
use super::refusal::Refusal;
use super::row::{Backing, PLACES};

#[derive(Drop)]
pub struct Image<'a> {
    pub(crate) bytes: &'a mut [u8],
}

impl<'a> Image<'a> {
    pub fn new(bytes: &'a mut [u8]) -> Image<'a>
        ensures value { result.bytes.now ≡ bytes.old }
        ensures lent { result.bytes.ghost_name ≡ bytes.entry.ghost_name }
    {
        Image { bytes }
    }

    // The caller's bytes, all of them, to be read.
    pub fn bytes(&self) -> &[u8]
        ensures { result.now ≡ self.now.bytes.now }
    {
        &*self.bytes
    }
}

fn byte_at(bytes: &[u8], place: usize) -> Result<u8, Fault>
    ensures { Reads (imaged bytes.now) place result }
{
    if place < PLACES && place < bytes.len() {
        Ok(bytes[place])
    } else {
        Err(Fault::from(Refusal::PastRow))
    }
}

impl Backing for Image<'_> {
    ghost row = { λ s. imaged s.bytes.now };

    ghost bytes = { λ s. imaged_bytes s.bytes.now };

    ghost past = { λ s. beyond s.bytes.now };

    ghost held = { λ s. s.bytes.ghost_name ∷ [] };

    fn len(&self) -> usize {
        self.bytes.len().min(PLACES)
    }

    fn get(&self, place: usize) -> Result<u8, Fault> {
        byte_at(self.bytes, place)
    }

    fn put(&mut self, place: usize, byte: u8) -> Result<(), Fault> {
        if place < PLACES && place < self.bytes.len() {
            self.bytes[place] = byte;
            Ok(())
        } else {
            Err(Fault::from(Refusal::PastRow))
        }
    }
}
