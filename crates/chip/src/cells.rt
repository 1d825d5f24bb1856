// The cells of a part in a backing.
ghost use Rattle.std.specs.Prelude.{◌≡◌, ℕ, List, ◌+◌, ◌^◌, ◌<◌, ◌≤◌, length, take, drop, Ok, Err, MatchResult, Decides, slice_index};
ghost use Rattle.rules.specs.Shape.{cell_count, status_at, lock_at};
ghost use Rattle.rules.specs.Tables.{unfit, passed};
ghost use Rattle.rules.specs.Rules.{base, laid, counts};
ghost use Rattle.chip.specs.Shows.{cells_of};
ghost use Rattle.chip.specs.Answers.{checked, unlawful};
ghost use Rattle.chip.specs.Cells.{Usable, EqualCells};

use super::part::Part;
use super::places;
use backing::fault::Fault;
use backing::refusal::Refusal;
use backing::row::Backing;
use rules::page::keep;
use rules::state::{Page, Target};
use std::marker::{Model, PhantomData};

// A part's cells: the front of a backing that has them all. Clauses see the bytes of the cells.
#[derive(Drop)]
pub(crate) struct Cells<'c, P: Part, B: Backing> {
    backing: &'c B,
    part: PhantomData<P>,
}

impl<'c, P: Part, B: Backing> Model for Cells<'c, P, B> {
    ghost Value = { List ℕ };

    ghost view = { λ c. cells_of P.shape (B.Backing.row c.backing.now) };

    ghost invariant = { λ c. cell_count P.shape ≤ length (B.Backing.row c.backing.now) };
}

// Whether the status and the lock cell may be so. They stay two bytes: a struct of them would be taken apart at once.
fn judge_cells(status: u8, lock: u8) -> Result<(), Refusal>
    ensures { result ≡ passed (unlawful status lock) }
{
    if keep(status) != status {
        return Err(Refusal::StatusBits);
    }
    if lock > 1 {
        return Err(Refusal::LockValue);
    }
    Ok(())
}

impl<'c, P: Part, B: Backing> Cells<'c, P, B> {
    // Making's refusals: whether the backing's row can be the part's cells.
    pub(crate) fn of(backing: &'c B) -> Result<Cells<'c, P, B>, Fault>
        ensures { MatchResult result (λ cells. Usable P.shape (B.Backing.row backing.now) cells) (λ fault. checked (unfit P.shape (cells_of P.shape (B.Backing.row backing.now))) ≡ Err fault) }
    {
        if backing.len() < places::cell_count::<P>() {
            return Err(Fault::from(Refusal::ShortBacking));
        }
        let cells = Cells {
            backing,
            part: PhantomData,
        };
        let status = cells.first(Target::Status)?;
        let lock = cells.first(Target::Lock)?;
        judge_cells(status, lock)?;
        Ok(cells)
    }

    // The cells of a backing that has them all, which `apply` knows from its own condition: see there. `of` writes this out,
    // since a call would hide the backing from its proof.
    pub(crate) fn new(backing: &'c B) -> Cells<'c, P, B>
        requires { cell_count P.shape ≤ length (B.Backing.row backing.now) }
        ensures { result ≡ cells_of P.shape (B.Backing.row backing.now) }
    {
        Cells {
            backing,
            part: PhantomData,
        }
    }

    // The byte of a cell.
    pub(crate) fn get(&self, place: usize) -> Result<u8, Fault>
        requires { place < cell_count P.shape }
        ensures value { result ≡ Ok (slice_index self.now place) }
        ensures whole { length self.now ≡ cell_count P.shape }
    {
        self.backing.get(place)
    }

    // The byte of the first cell that a write to this target, at address 0, may reach.
    pub(crate) fn first(&self, target: Target) -> Result<u8, Fault>
        ensures { result ≡ Ok (slice_index self.now (base P.shape target 0)) }
    {
        self.get(places::base_of::<P>(target, 0))
    }

    // Whether a write counts, with W at this level.
    pub(crate) fn takes(&self, protect: bool, page: &Page) -> Result<bool, Fault>
        ensures { result ≡ Ok (counts P.shape protect (slice_index self.now (status_at P.shape)) (slice_index self.now (lock_at P.shape)) page.now) }
    {
        let status = self.first(Target::Status)?;
        let lock = self.first(Target::Lock)?;
        Ok(page.counts(
            places::is_open::<P>(status, page.start),
            protect,
            status,
            lock,
        ))
    }

    // Fills `out` with the cells from `from` on. Here and in `lay` a backing's faults pass up by `?`, a rule of ours.
    pub(crate) fn fill(&self, from: usize, out: &mut [u8]) -> Result<(), Fault>
        requires { (length out.old ≡ 256) × (from + 256 ≤ cell_count P.shape) }
        ensures made { result ≡ Ok tt }
        ensures out { out.new ≡ take 256 (drop from self.now) }
    {
        for (i, byte) in out.iter_mut().enumerate() {
            *byte = self.get(from + i)?;
        }
        Ok(())
    }

    // Whether the cells of two chips hold the same bytes. An iterator is no plainer: a backing is read place by place, and
    // each read may be refused.
    pub(crate) fn same<A: Backing>(&self, other: &Cells<'_, P, A>) -> Result<bool, Fault>
        ensures { MatchResult result (λ same. Decides same (EqualCells P.shape self.now other.now)) (λ _. ⊥) }
    {
        for place in 0..places::cell_count::<P>() {
            if self.get(place)? != other.get(place)? {
                return Ok(false);
            }
        }
        Ok(true)
    }
}

// Puts the bytes of a write into the row, from `base` on.
pub(crate) fn lay<B: Backing>(
    backing: &mut B,
    base: usize,
    bytes: &[Option<u8>],
) -> Result<(), Fault>
    requires { (base < 2 ^ 32) × (length bytes.now ≤ 256) × (base + length bytes.now ≤ length (B.Backing.row backing.old)) }
    ensures made { result ≡ Ok tt }
    ensures row { B.Backing.row backing.new ≡ laid (B.Backing.row backing.old) base bytes.now }
    ensures held { B.Backing.held backing.new ≡ B.Backing.held backing.old }
    ensures past { B.Backing.past backing.new ≡ B.Backing.past backing.old }
{
    for (i, byte) in bytes.iter().enumerate() {
        if let Some(byte) = byte {
            backing.put(base + i, *byte)?;
        }
    }
    Ok(())
}
