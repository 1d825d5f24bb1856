// What a caller knows of its bytes when a chip on an image of them is gone.
ghost use Rattle.std.specs.Prelude.{◌≡◌, length, drop};
ghost use Rattle.backing.specs.Rows.{imaged, beyond};
ghost use Rattle.rules.specs.Shape.{cell_count};
ghost use Rattle.rules.specs.Rules.{born};
ghost use Rattle.rules.specs.Calls.{outcome, capture as capturing, written};
ghost use Rattle.chip.specs.Shows.{cells_of};

use super::part::Part;
use super::unit::Chip;
use backing::fault::Fault;
use backing::image::Image;
use backing::row::Backing;

// Runs a capture on a new chip over any backing. Records and answers stay two parameters, as C has them.
fn run_on<P: Part, B: Backing>(
    backing: &mut B,
    records: &[u8],
    answers: &mut [u8],
) -> Result<usize, Fault>
    ensures says { result ≡ (outcome P.shape (born P.shape (B.Backing.row backing.old)) (capturing records.now (length answers.old))).says }
    ensures answers { answers.new ≡ written (outcome P.shape (born P.shape (B.Backing.row backing.old)) (capturing records.now (length answers.old))).levels answers.old }
    ensures cells { cells_of P.shape (B.Backing.row backing.new) ≡ (outcome P.shape (born P.shape (B.Backing.row backing.old)) (capturing records.now (length answers.old))).view.cells }
    ensures rest { drop (cell_count P.shape) (B.Backing.row backing.new) ≡ drop (cell_count P.shape) (B.Backing.row backing.old) }
    ensures held { B.Backing.held backing.new ≡ B.Backing.held backing.old }
    ensures past { B.Backing.past backing.new ≡ B.Backing.past backing.old }
{
    let mut chip: Chip<P, B> = Chip::new(backing);
    chip.capture(records, answers)
}

// Runs a capture on the caller's bytes: they then hold the cells, and past them what they held.
pub fn run_on_bytes<P: Part>(
    bytes: &mut [u8],
    records: &[u8],
    answers: &mut [u8],
) -> Result<usize, Fault>
    ensures says { result ≡ (outcome P.shape (born P.shape (imaged bytes.old)) (capturing records.now (length answers.old))).says }
    ensures answers { answers.new ≡ written (outcome P.shape (born P.shape (imaged bytes.old)) (capturing records.now (length answers.old))).levels answers.old }
    ensures cells { cells_of P.shape (imaged bytes.new) ≡ (outcome P.shape (born P.shape (imaged bytes.old)) (capturing records.now (length answers.old))).view.cells }
    ensures rest { drop (cell_count P.shape) (imaged bytes.new) ≡ drop (cell_count P.shape) (imaged bytes.old) }
    ensures past { beyond bytes.new ≡ beyond bytes.old }
{
    let mut image = Image::new(bytes);
    run_on::<P, Image>(&mut image, records, answers)
}
