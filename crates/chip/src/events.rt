// What an event that is taken does to a chip.
ghost use Rattle.std.specs.Prelude.{◌≡◌, ◌≤◌, length, Ok};
ghost use Rattle.rules.specs.Shape.{cell_count};
ghost use Rattle.rules.specs.Tables.{decoded};
ghost use Rattle.rules.specs.Rules.{is_off, running, ended, moved, step as stepped, after};
ghost use Rattle.chip.specs.Shows.{view_of, Kept};
ghost use Rattle.chip.specs.Answers.{admitted, answered};

use super::cells::{Cells, lay};
use super::part::Part;
use super::places;
use super::unit::{Chip, Unit};
use backing::fault::Fault;
use backing::row::Backing;
use rules::decode::refuse;
use rules::instruct::judge;
use rules::latch::aim;
use rules::page::roll;
use rules::query::runs;
use rules::register::{push, push_address};
use rules::state::{Event, Level, Phase, Shift};

impl Unit {
    // The event of two bytes, unless it is refused.
    fn admit(&self, kind: u8, level: u8) -> Result<Event, Fault>
        ensures { result ≡ admitted (is_off self.now.stretch) self.now.pins (running self.now.cycle) (decoded kind level) }
    {
        let event = Event::try_from((kind, level))?;
        refuse(self.stretch.is_off(), self.pins, runs(&self.cycle), event)?;
        Ok(event)
    }
}

// What is asked here of the backing stays a `requires`: a struct that lends a chip and keeps that fact as its ghost field
// was tried, and its proof did not close, since what a field behind a `&mut` lends is not covered. That a result is `Ok`
// stays a clause, here and where cells are read and laid: by a rule of ours a backing's faults pass up by `?`, though none
// comes. `lent` and `kept` stay for the reason given beside `event`.
impl<'a, P: Part, B: Backing> Chip<'a, P, B> {
    fn cycle_end(&mut self) -> Result<(), Fault>
        requires { cell_count P.shape ≤ length (B.Backing.row self.old.backing.now) }
        ensures made { result ≡ Ok tt }
        ensures view { view_of P.shape B.Backing.row self.new ≡ ended P.shape (view_of P.shape B.Backing.row self.old) self.old.unit.cycle }
        ensures lent { self.new.backing.ghost_name ≡ self.old.backing.ghost_name }
        ensures kept { Kept P.shape B.Backing.row B.Backing.past B.Backing.held self.old.backing.now self.new.backing.now }
    {
        if let Some(write) = &self.unit.cycle {
            let base = places::base_of::<P>(write.target, write.start);
            let reach = places::reach_of::<P>(write.target);
            lay(self.backing, base, &write.bytes[..reach])?;
            self.unit.cycle = None;
            self.unit.wel = false;
        }
        Ok(())
    }

    // What an event that is not refused does: state and event together.
    fn apply(&mut self, event: Event) -> Result<(), Fault>
        requires { cell_count P.shape ≤ length (B.Backing.row self.old.backing.now) }
        ensures made { result ≡ Ok tt }
        ensures view { view_of P.shape B.Backing.row self.new ≡ moved P.shape (view_of P.shape B.Backing.row self.old) event }
        ensures lent { self.new.backing.ghost_name ≡ self.old.backing.ghost_name }
        ensures kept { Kept P.shape B.Backing.row B.Backing.past B.Backing.held self.old.backing.now self.new.backing.now }
    {
        match (&mut self.unit.stretch, event) {
            (_, Event::Select(true)) => {
                return self.unit.select_rise(&Cells::<P, B>::new(self.backing));
            }
            (phase, Event::Select(false)) => {
                *phase = Phase::Instruction(0, 0);
                self.unit.shift = Shift {
                    held: !self.unit.pins.clock && !self.unit.pins.hold,
                    ..Shift::AT_REST
                };
            }
            (_, Event::Clock(true)) if self.unit.shift.held => self.unit.pins.clock = true,
            (Phase::Instruction(n, value), Event::Clock(true)) => {
                let more = push(*value, self.unit.pins.input);
                self.unit.pins.clock = true;
                if *n < 7 {
                    *n += 1;
                    *value = more;
                } else {
                    self.unit.stretch = judge(runs(&self.unit.cycle), self.unit.wel, more);
                }
            }
            (Phase::Status(k), Event::Clock(true)) => {
                *k = roll(*k, 7);
                self.unit.pins.clock = true;
            }
            (Phase::Address(access, wel, n, value), Event::Clock(true)) => {
                let more = push_address(*value, self.unit.pins.input);
                self.unit.pins.clock = true;
                if *n < 23 {
                    *n += 1;
                    *value = more;
                } else {
                    self.unit.stretch = aim(P::IDENT_PAGE, *access, *wel, more);
                }
            }
            (Phase::Output(_, address, k), Event::Clock(true)) => {
                self.unit.pins.clock = true;
                if *k < 7 {
                    *k += 1;
                } else {
                    *address = address.wrapping_add(1);
                    *k = 0;
                }
            }
            (Phase::Input(page), Event::Clock(true)) => {
                page.latch(self.unit.pins.input);
                self.unit.pins.clock = true;
            }
            (_, Event::Clock(true)) => self.unit.pins.clock = true,
            (_, Event::Clock(false)) => {
                return self.unit.clock_fall(&Cells::<P, B>::new(self.backing));
            }
            (_, Event::Data(level)) => self.unit.pins.input = level,
            (_, Event::Protect(level)) => self.unit.pins.protect = level,
            (_, Event::Hold(level)) if self.unit.pins.clock => self.unit.pins.hold = level,
            (phase, Event::Hold(level)) => {
                self.unit.shift.held = !phase.is_off() && !level;
                self.unit.pins.hold = level;
            }
            (_, Event::CycleEnd) => return self.cycle_end(),
            (_, Event::Power) => self.unit.wel = false,
        }
        Ok(())
    }

    // An event of two bytes, unless it is refused.
    pub(crate) fn step(&mut self, kind: u8, level: u8) -> Result<Level, Fault>
        requires { cell_count P.shape ≤ length (B.Backing.row self.old.backing.now) }
        ensures answer { result ≡ answered (stepped P.shape (view_of P.shape B.Backing.row self.old) kind level) }
        ensures view { view_of P.shape B.Backing.row self.new ≡ after (view_of P.shape B.Backing.row self.old) (stepped P.shape (view_of P.shape B.Backing.row self.old) kind level) }
        ensures lent { self.new.backing.ghost_name ≡ self.old.backing.ghost_name }
        ensures kept { Kept P.shape B.Backing.row B.Backing.past B.Backing.held self.old.backing.now self.new.backing.now }
    {
        let event = self.unit.admit(kind, level)?;
        self.apply(event)?;
        Ok(self.unit.shift.seen())
    }
}
