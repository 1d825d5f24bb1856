// The meaning of a backing.
ghost use Rattle.std.specs.Prelude.{◌≡◌, ℕ, List, length};
ghost use Rattle.std.specs.Borrow.{GName};
ghost use Rattle.backing.specs.Rows.{Bytes, Reads, Writes};

use super::fault::Fault;

// The places that an image and a pair count at most.
pub const PLACES: usize = 1_048_576;

// A place and its byte stay two parameters, as C has them; `held` and `past` stay two facts, each of its own use.
pub trait Backing {
    ghost row: { Self → List ℕ };

    ghost bytes: { (s : Self) → Bytes (row s) };

    // The names of the references that it holds: with them a caller knows its own bytes again.
    ghost held: { Self → List GName };

    // The bytes that it keeps past its row: no call changes them.
    ghost past: { Self → List ℕ };

    fn len(&self) -> usize
        ensures { result ≡ length (row self.now) };

    fn get(&self, place: usize) -> Result<u8, Fault>
        ensures { Reads (row self.now) place result };

    fn put(&mut self, place: usize, byte: u8) -> Result<(), Fault>
        ensures row { Writes (row self.old) (row self.new) place byte result }
        ensures past { past self.new ≡ past self.old }
        ensures held { held self.new ≡ held self.old };
}
