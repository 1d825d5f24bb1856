// When two chips are the same.
ghost use Rattle.std.specs.Prelude.{◌≡◌};
ghost use Rattle.chip.specs.Shows.{view_of};
ghost use Rattle.chip.specs.Sameness.{Compared};

use super::cells::Cells;
use super::part::Part;
use super::unit::Chip;
use backing::fault::Fault;
use backing::row::Backing;
use rules::query::runs;

// How two fit chips compare.
#[derive(Clone, Copy, Debug, PartialEq)]
pub enum Comparison {
    // S of one of them is low.
    Selected,
    // S of both is high, and in one of them a cycle runs.
    Running,
    // Both rest, and no further events tell them apart.
    Same,
    // Both rest, and some events tell them apart.
    Different,
}

// Whether two chips of one part are the same, whatever their backings.
pub fn same<'a, 'b, P: Part, A: Backing, B: Backing>(
    a: &Chip<'a, P, A>,
    b: &Chip<'b, P, B>,
) -> Result<Comparison, Fault>
    ensures { Compared P.shape (view_of P.shape A.Backing.row a.now) (view_of P.shape B.Backing.row b.now) result }
{
    let first = Cells::<P, A>::of(a.backing)?;
    let second = Cells::<P, B>::of(b.backing)?;
    if !a.unit.stretch.is_off() || !b.unit.stretch.is_off() {
        return Ok(Comparison::Selected);
    }
    if runs(&a.unit.cycle) || runs(&b.unit.cycle) {
        return Ok(Comparison::Running);
    }
    if a.unit.pins == b.unit.pins && a.unit.wel == b.unit.wel && first.same(&second)? {
        Ok(Comparison::Same)
    } else {
        Ok(Comparison::Different)
    }
}
