// The parts of a capture, and the reader.

// What S does over a part of a capture; each case holds that part's bytes. A struct of a kind and the bytes is no plainer:
// who matches on the case has its bytes at hand.
#[derive(Clone, Copy, Debug, PartialEq, Eq)]
pub enum Stretch<'a> {
    Quiet(&'a [u8]),
    Selected(&'a [u8]),
    Open(&'a [u8]),
    LoneByte(&'a [u8]),
}

// A stretch with the number of its first record.
#[derive(Clone, Copy, Debug, PartialEq, Eq)]
pub struct Placed<'a> {
    pub first: usize,
    pub stretch: Stretch<'a>,
}

// A capture, and how many of its bytes are handed out.
// A slice of what is left is no plainer: a part's number would need a count beside it too.
#[derive(Drop)]
pub struct Reader<'a> {
    pub(crate) capture: &'a [u8],
    pub(crate) place: usize,
}
