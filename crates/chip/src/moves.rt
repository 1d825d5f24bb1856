// What a fall of C and a rise of S do to a unit, beside the cells that it reads. That a result is `Ok` stays a clause: by a
// rule of ours a backing's faults pass up by `?`, though none comes.
ghost use Rattle.std.specs.Prelude.{◌≡◌, true, is_ok, IfOk, Ok};
ghost use Rattle.rules.specs.Rules.{falls_c, rises_s};
ghost use Rattle.chip.specs.Shows.{shown, resting};
ghost use Rattle.chip.specs.Answers.{Fresh};

use super::cells::Cells;
use super::part::Part;
use super::places;
use super::unit::Unit;
use backing::fault::Fault;
use backing::row::Backing;
use rules::query::runs;
use rules::shift::status_byte;
use rules::state::{Phase, Shift, Target};

impl Unit {
    fn deselect(&mut self)
        ensures { self.new ≡ resting self.old }
    {
        self.stretch = Phase::Deselected;
        self.shift = Shift::AT_REST;
    }

    // The byte that a fall of C begins to put out: it is sampled at bit 0 of an output byte, the highest.
    fn fresh<P: Part, B: Backing>(&self, cells: &Cells<'_, P, B>) -> Result<u8, Fault>
        ensures made { is_ok result ≡ true }
        ensures value { IfOk result (λ fresh. Fresh P.shape (shown self.now cells.now) fresh) }
    {
        match self.stretch {
            Phase::Status(0) => {
                let status = cells.first(Target::Status)?;
                Ok(status_byte(status, self.wel, runs(&self.cycle)))
            }
            Phase::Output(region, address, 0) => cells.get(places::cell_of::<P>(region, address)),
            _ => Ok(0),
        }
    }

    pub(crate) fn clock_fall<P: Part, B: Backing>(
        &mut self,
        cells: &Cells<'_, P, B>,
    ) -> Result<(), Fault>
        ensures made { result ≡ Ok tt }
        ensures view { shown self.new cells.now ≡ falls_c P.shape (shown self.old cells.now) self.old.shift.held }
    {
        let held = !self.stretch.is_off() && !self.pins.hold;
        self.pins.clock = false;
        if self.shift.held {
            self.shift.held = held;
            return Ok(());
        }
        let fresh = self.fresh(cells)?;
        match self.stretch {
            Phase::Status(k) | Phase::Output(_, _, k) => self.shift.out(held, fresh, k),
            _ => self.shift.held = held,
        }
        Ok(())
    }

    pub(crate) fn select_rise<P: Part, B: Backing>(
        &mut self,
        cells: &Cells<'_, P, B>,
    ) -> Result<(), Fault>
        ensures made { result ≡ Ok tt }
        ensures view { shown self.new cells.now ≡ rises_s P.shape (shown self.old cells.now) self.old.shift.held }
    {
        if self.shift.held {
            self.deselect();
            return Ok(());
        }
        match &self.stretch {
            Phase::Enable => self.wel = true,
            Phase::Disable => self.wel = false,
            Phase::Input(page) => {
                if cells.takes(self.pins.protect, page)? {
                    self.cycle = Some(page.pending());
                }
            }
            _ => {}
        }
        self.deselect();
        Ok(())
    }
}
