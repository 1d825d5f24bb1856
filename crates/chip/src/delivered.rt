// The cells of a delivered bench part.
ghost use Rattle.std.specs.Prelude.{◌≡◌};
ghost use Rattle.laws.specs.Bench.{delivered};

// All cells of a bench part, and the first places of its unique ID and its status cell.
pub const CELLS: usize = 4370;

const UNIQUE: usize = 4352;

const STATUS: usize = 4368;

const UNIQUE_ID: [u8; 16] = [0, 1, 2, 3, 4, 5, 6, 7, 8, 9, 10, 11, 12, 13, 14, 15];

// Fixed memory: an array of the caller's, and no heap. FFh in array and identification page, 00h to 0Fh as unique ID, 0 in the status and the lock cell.
pub fn deliver(cells: &mut [u8; CELLS])
    ensures { cells.new ≡ delivered }
{
    *cells = [0xFF; CELLS];
    cells[UNIQUE..STATUS].copy_from_slice(&UNIQUE_ID);
    cells[STATUS] = 0;
    cells[STATUS + 1] = 0;
}
