// Two backings end to end.
ghost use Rattle.std.specs.Prelude.{◌≡◌, ◌++◌};
ghost use Rattle.backing.specs.Rows.{paired, beyond};
ghost use Rattle.backing.specs.Made.{paired_bytes};

use super::fault::Fault;
use super::refusal::Refusal;
use super::row::{Backing, PLACES};

#[derive(Drop)]
pub struct Pair<A, B> {
    pub(crate) a: A,
    pub(crate) b: B,
}

impl<A: Backing, B: Backing> Pair<A, B> {
    pub fn new(a: A, b: B) -> Pair<A, B>
        ensures first { result.a ≡ a }
        ensures second { result.b ≡ b }
    {
        Pair { a, b }
    }
}

// `get` and `put` split a place alike: a function that answers the side would only be matched on again.
impl<A: Backing, B: Backing> Backing for Pair<A, B> {
    ghost row = { λ s. paired (A.Backing.row s.a) (B.Backing.row s.b) };

    ghost bytes = { λ s. paired_bytes (A.Backing.row s.a) (B.Backing.row s.b) (A.Backing.bytes s.a) (B.Backing.bytes s.b) };

    ghost past = { λ s. beyond (A.Backing.row s.a ++ B.Backing.row s.b) ++ (A.Backing.past s.a ++ B.Backing.past s.b) };

    ghost held = { λ s. A.Backing.held s.a ++ B.Backing.held s.b };

    fn len(&self) -> usize {
        let n = self.a.len();
        if n < PLACES {
            n + self.b.len().min(PLACES - n)
        } else {
            PLACES
        }
    }

    fn get(&self, place: usize) -> Result<u8, Fault> {
        if place >= PLACES {
            return Err(Fault::from(Refusal::PastRow));
        }
        let n = self.a.len();
        if place < n {
            self.a.get(place)
        } else {
            self.b.get(place - n)
        }
    }

    fn put(&mut self, place: usize, byte: u8) -> Result<(), Fault> {
        if place >= PLACES {
            return Err(Fault::from(Refusal::PastRow));
        }
        let n = self.a.len();
        if place < n {
            self.a.put(place, byte)
        } else {
            self.b.put(place - n, byte)
        }
    }
}
