// Calls on a chip.
ghost use Rattle.std.specs.Prelude.{◌≡◌};
ghost use Rattle.rules.specs.Rules.{born};
ghost use Rattle.rules.specs.Calls.{outcome, event as an_event};
ghost use Rattle.chip.specs.Shows.{view_of, Kept};
ghost use Rattle.chip.specs.Answers.{numbered};
ghost use Rattle.chip.specs.Histories.{EventLaw};

use super::cells::Cells;
use super::part::Part;
use super::unit::{Chip, Unit};
use backing::fault::Fault;
use backing::row::Backing;
use rules::state::{Level, Phase, Pins, Shift};
use std::marker::PhantomData;

impl<'a, P: Part, B: Backing> Chip<'a, P, B> {
    pub fn new(backing: &'a mut B) -> Chip<'a, P, B>
        ensures view { view_of P.shape B.Backing.row result ≡ born P.shape (B.Backing.row backing.old) }
        ensures row { B.Backing.row result.backing.now ≡ B.Backing.row backing.old }
        ensures lent { result.backing.ghost_name ≡ backing.entry.ghost_name }
        ensures held { B.Backing.held result.backing.now ≡ B.Backing.held backing.old }
        ensures past { B.Backing.past result.backing.now ≡ B.Backing.past backing.old }
    {
        Chip {
            backing,
            unit: Unit {
                pins: Pins {
                    clock: false,
                    input: false,
                    protect: true,
                    hold: true,
                },
                wel: false,
                cycle: None,
                stretch: Phase::Deselected,
                shift: Shift::AT_REST,
            },
            part: PhantomData,
        }
    }

    // An event of two bytes, as C has them: making's refusals come first. `lent` and `kept` stay on each call: a model of the
    // chip would show the backing whole beside the view, so that no clause would be shorter.
    pub fn event(&mut self, kind: u8, level: u8) -> Result<Level, Fault>
        ensures says { numbered result ≡ (outcome P.shape (view_of P.shape B.Backing.row self.old) (an_event kind level)).says }
        ensures view { view_of P.shape B.Backing.row self.new ≡ (outcome P.shape (view_of P.shape B.Backing.row self.old) (an_event kind level)).view }
        ensures lent { self.new.backing.ghost_name ≡ self.old.backing.ghost_name }
        ensures kept { Kept P.shape B.Backing.row B.Backing.past B.Backing.held self.old.backing.now self.new.backing.now }
        ensures law { EventLaw P.shape (view_of P.shape B.Backing.row self.old) (view_of P.shape B.Backing.row self.new) kind level result }
    {
        Cells::<P, B>::of(self.backing)?;
        self.step(kind, level)
    }
}
