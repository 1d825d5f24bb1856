// What a refused call answers: which refusal, in which record, raised by which layer.
ghost use Rattle.std.specs.Prelude.{◌≡◌};
ghost use Rattle.backing.specs.Faults.{raised, moved_to};

use super::layer::Layer;
use super::refusal::Refusal;

#[derive(Clone, Copy, Debug, PartialEq)]
pub struct Fault {
    pub refusal: Refusal,
    pub record: usize,
    pub layer: Layer,
}

// The fault of a refusal outside the records of a capture.
impl From<Refusal> for Fault {
    ghost from_gives = { λ refusal fault. fault ≡ raised refusal 0 };

    fn from(refusal: Refusal) -> Fault {
        Fault {
            refusal,
            record: 0,
            layer: refusal.layer(),
        }
    }
}

impl Fault {
    // The same fault, in this record.
    pub fn at(self, record: usize) -> Fault
        ensures { result ≡ moved_to self «record» }
    {
        Fault { record, ..self }
    }
}
