// Events: from their two bytes, and which are refused.
ghost use Rattle.std.specs.Prelude.{◌≡◌};
ghost use Rattle.rules.specs.Tables.{decoded, there, refused_event, passed};

use super::state::{Event, Pins};
use backing::refusal::Refusal;

// The event of a kind and a level.
impl TryFrom<(u8, u8)> for Event {
    type Error = Refusal;

    ghost try_from_gives = { λ bytes answer. answer ≡ decoded bytes.0 bytes.1 };

    fn try_from((kind, level): (u8, u8)) -> Result<Event, Refusal> {
        if kind > 6 {
            return Err(Refusal::UnknownKind);
        }
        if level > 1 || (kind > 4 && level == 1) {
            return Err(Refusal::BadLevel);
        }
        Ok(match kind {
            0 => Event::Select(level == 1),
            1 => Event::Clock(level == 1),
            2 => Event::Data(level == 1),
            3 => Event::Protect(level == 1),
            4 => Event::Hold(level == 1),
            5 => Event::CycleEnd,
            _ => Event::Power,
        })
    }
}

// A pin may not go where it is.
fn must_move(level: bool, goes: bool) -> Result<(), Refusal>
    ensures { result ≡ passed (there level goes) }
{
    if level == goes {
        Err(Refusal::PinAlreadyThere)
    } else {
        Ok(())
    }
}

// Refuses an event that may not come; `off` is the level of S.
pub fn refuse(off: bool, pins: Pins, running: bool, event: Event) -> Result<(), Refusal>
    ensures { result ≡ passed (refused_event off pins.clock pins.input pins.protect pins.hold running event) }
{
    match event {
        Event::Select(level) => must_move(off, level),
        Event::Clock(level) => must_move(pins.clock, level),
        Event::Data(level) => must_move(pins.input, level),
        Event::Protect(level) => must_move(pins.protect, level),
        Event::Hold(level) => must_move(pins.hold, level),
        Event::CycleEnd if running => Ok(()),
        Event::CycleEnd => Err(Refusal::NoCycle),
        Event::Power if !off => Err(Refusal::PowerSelected),
        Event::Power if running => Err(Refusal::PowerInCycle),
        Event::Power => Ok(()),
    }
}
