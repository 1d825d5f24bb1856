// Captures: events record by record, up to the first that is refused.
ghost use Rattle.std.specs.Prelude.{◌≡◌, ℕ, ◌/◌, ◌%◌, ◌≤◌, length};
ghost use Rattle.rules.specs.Shape.{cell_count};
ghost use Rattle.rules.specs.Calls.{outcome, capture as capturing, records as through, written};
ghost use Rattle.chip.specs.Shows.{view_of, Kept};
ghost use Rattle.chip.specs.Histories.{CaptureLaw};

use super::cells::Cells;
use super::part::Part;
use super::unit::Chip;
use backing::fault::Fault;
use backing::refusal::Refusal;
use backing::row::Backing;

impl<'a, P: Part, B: Backing> Chip<'a, P, B> {
    // Takes the records, each a kind and a level, and answers how many; Q after record i goes to answers[i]. Both are plain
    // bytes of the caller's, as C has them, and no heap is used.
    pub fn capture(&mut self, records: &[u8], answers: &mut [u8]) -> Result<usize, Fault>
        ensures view { view_of P.shape B.Backing.row self.new ≡ (outcome P.shape (view_of P.shape B.Backing.row self.old) (capturing records.now (length answers.old))).view }
        ensures says { result ≡ (outcome P.shape (view_of P.shape B.Backing.row self.old) (capturing records.now (length answers.old))).says }
        ensures answers { answers.new ≡ written (outcome P.shape (view_of P.shape B.Backing.row self.old) (capturing records.now (length answers.old))).levels answers.old }
        ensures lent { self.new.backing.ghost_name ≡ self.old.backing.ghost_name }
        ensures kept { Kept P.shape B.Backing.row B.Backing.past B.Backing.held self.old.backing.now self.new.backing.now }
        ensures law { CaptureLaw P.shape (view_of P.shape B.Backing.row self.old) (view_of P.shape B.Backing.row self.new) records.now answers.old answers.new (length answers.old) result }
    {
        Cells::<P, B>::of(self.backing)?;
        if records.len() % 2 != 0 {
            return Err(Fault::from(Refusal::OddLength));
        }
        if answers.len() < records.len() / 2 {
            return Err(Fault::from(Refusal::ShortAnswers));
        }
        self.records(records, answers)
    }

    // Records up to the first that is refused. Its condition on the backing stays for the reason given beside `apply`, and
    // `lent` and `kept` here and above for the one beside `event`.
    fn records(&mut self, records: &[u8], answers: &mut [u8]) -> Result<usize, Fault>
        requires long { cell_count P.shape ≤ length (B.Backing.row self.old.backing.now) }
        requires even { length records.now % 2 ≡ 0 }
        requires room { length records.now / 2 ≤ length answers.old }
        ensures view { view_of P.shape B.Backing.row self.new ≡ (through P.shape (view_of P.shape B.Backing.row self.old) 0 records.now).view }
        ensures says { result ≡ (through P.shape (view_of P.shape B.Backing.row self.old) 0 records.now).says }
        ensures answers { answers.new ≡ written (through P.shape (view_of P.shape B.Backing.row self.old) 0 records.now).levels answers.old }
        ensures lent { self.new.backing.ghost_name ≡ self.old.backing.ghost_name }
        ensures kept { Kept P.shape B.Backing.row B.Backing.past B.Backing.held self.old.backing.now self.new.backing.now }
    {
        let (pairs, _) = records.as_chunks::<2>();
        for (i, &[kind, level]) in pairs.iter().enumerate() {
            match self.step(kind, level) {
                Ok(q) => answers[i] = u8::from(q),
                Err(fault) => return Err(fault.at(i)),
            }
        }
        Ok(pairs.len())
    }
}
