// Page copies.
ghost use Rattle.std.specs.Prelude.{◌≡◌, length};
ghost use Rattle.rules.specs.Calls.{outcome, copy as copying, page_in, copied};
ghost use Rattle.chip.specs.Shows.{view_of, cells_of};

use super::cells::Cells;
use super::part::Part;
use super::places;
use super::unit::Chip;
use backing::fault::Fault;
use backing::refusal::Refusal;
use backing::row::Backing;
use rules::query::runs;

impl<'a, P: Part, B: Backing> Chip<'a, P, B> {
    // Copies a page of the array to the buffer, from place `at` on. No heap: the buffer is the caller's, as C has it.
    pub fn page_copy(&self, page: usize, buffer: &mut [u8], at: usize) -> Result<usize, Fault>
        ensures says { result ≡ (outcome P.shape (view_of P.shape B.Backing.row self.now) (copying page at (length buffer.old))).says }
        ensures buffer { buffer.new ≡ copied result (page_in (cells_of P.shape (B.Backing.row self.now.backing.now)) page) at buffer.old }
    {
        let cells = Cells::<P, B>::of(self.backing)?;
        if page >= places::array_len::<P>() / 256 {
            return Err(Fault::from(Refusal::NoSuchPage));
        }
        if buffer.len() < 256 || at > buffer.len() - 256 {
            return Err(Fault::from(Refusal::ShortBuffer));
        }
        if runs(&self.unit.cycle) {
            return Err(Fault::from(Refusal::CycleRunning));
        }
        cells.fill(page * 256, &mut buffer[at..at + 256])?;
        Ok(256)
    }
}
