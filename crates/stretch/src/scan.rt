// The search for a record that moves S.
ghost use Rattle.std.specs.Prelude.{◌≡◌, ◌≤◌, length, position};
ghost use Rattle.stretch.specs.Parts.{is_move, ahead};

// The number of the first record `0, level`.
fn first_move(level: u8, records: &[[u8; 2]]) -> Option<usize>
    ensures { result ≡ position (is_move level) records.now }
{
    records
        .iter()
        .position(|&[kind, to]| kind == 0 && to == level)
}

// The bytes ahead of the first record `0, level`, or of all whole records where none is such.
#[tactic(auto, using(crate::proofs::Scans::ahead_found))]
pub fn bytes_ahead(level: u8, capture: &[u8]) -> usize
    ensures value { result ≡ ahead level capture.now }
    ensures within { result ≤ length capture.now }
{
    let (records, _) = capture.as_chunks::<2>();
    2 * first_move(level, records).unwrap_or(records.len())
}
