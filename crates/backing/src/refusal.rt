// The sixteen refusals, by their numbers.
ghost use Rattle.std.specs.Prelude.{◌≡◌};
ghost use Rattle.backing.specs.Faults.{number, raiser, Only};

use super::layer::Layer;

#[derive(Clone, Copy, Debug, PartialEq)]
pub enum Refusal {
    ShortBacking = 1,
    StatusBits = 2,
    LockValue = 3,
    UnknownKind = 4,
    BadLevel = 5,
    PinAlreadyThere = 6,
    NoCycle = 7,
    PowerSelected = 8,
    PowerInCycle = 9,
    OddLength = 10,
    ShortAnswers = 11,
    NoSuchPage = 12,
    ShortBuffer = 13,
    CycleRunning = 14,
    PastRow = 15,
    LongInput = 16,
}

impl From<Refusal> for u8 {
    ghost from_gives = { λ refusal n. (n ≡ number refusal) × Only refusal n };

    fn from(refusal: Refusal) -> u8 {
        refusal as u8
    }
}

impl Refusal {
    // The layer whose row has this refusal.
    pub fn layer(self) -> Layer
        ensures { result ≡ raiser self }
    {
        match self {
            Refusal::ShortBacking | Refusal::StatusBits | Refusal::LockValue => Layer::Making,
            Refusal::UnknownKind
            | Refusal::BadLevel
            | Refusal::PinAlreadyThere
            | Refusal::NoCycle
            | Refusal::PowerSelected
            | Refusal::PowerInCycle => Layer::Event,
            Refusal::OddLength | Refusal::ShortAnswers => Layer::Capture,
            Refusal::NoSuchPage | Refusal::ShortBuffer | Refusal::CycleRunning => Layer::PageCopy,
            Refusal::PastRow => Layer::Backing,
            Refusal::LongInput => Layer::Program,
        }
    }
}
