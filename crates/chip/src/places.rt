// Where things lie in a part's cells.
ghost use Rattle.std.specs.Prelude.{◌≡◌, ℕ, ◌+◌, ◌<◌, ◌≤◌};
ghost use Rattle.rules.specs.Shape.{array_len, unique_at, cell_count};
ghost use Rattle.rules.specs.Tables.{page_of, page_open};
ghost use Rattle.rules.specs.Rules.{place, base, reach};

use super::part::Part;
use rules::close::protected_from;
use rules::state::{Region, Target};

pub(crate) fn array_len<P: Part>() -> usize
    ensures value { result ≡ array_len P.shape }
    ensures bounds { (4096 ≤ result) × (result ≤ 262144) }
{
    1usize << P::ADDRESS_BITS
}

pub(crate) fn unique_start<P: Part>() -> usize
    ensures { (result ≡ unique_at P.shape) × (result ≤ 262400) }
{
    array_len::<P>() + P::IDENT_PAGE.length() as usize
}

// How many cells a part has.
pub fn cell_count<P: Part>() -> usize
    ensures value { result ≡ cell_count P.shape }
    ensures bounds { result ≤ 262418 }
{
    unique_start::<P>() + 18
}

// The cell that a read of this region puts out at an address.
pub fn cell_of<P: Part>(region: Region, address: u32) -> usize
    ensures value { result ≡ place P.shape region address }
    ensures within { result < cell_count P.shape }
{
    match region {
        Region::Array => address as usize % array_len::<P>(),
        Region::Ident => array_len::<P>() + P::IDENT_PAGE.place(address) as usize,
        Region::Unique => unique_start::<P>() + (address % 16) as usize,
        Region::Lock => unique_start::<P>() + 17,
    }
}

// The first cell that a write may reach.
pub fn base_of<P: Part>(target: Target, start: u32) -> usize
    ensures value { result ≡ base P.shape target start }
    ensures within { (result + reach P.shape target ≤ cell_count P.shape) × (result < 1000000) }
{
    match target {
        Target::Array => start as usize % array_len::<P>() / 256 * 256,
        Target::Ident => array_len::<P>(),
        Target::Status => unique_start::<P>() + 16,
        Target::Lock => unique_start::<P>() + 17,
    }
}

pub(crate) fn reach_of<P: Part>(target: Target) -> usize
    ensures { (result ≡ reach P.shape target) × (result ≤ 256) }
{
    match target {
        Target::Array => 256,
        Target::Ident => P::IDENT_PAGE.length() as usize,
        Target::Status | Target::Lock => 1,
    }
}

// Whether the array page of an address is open to writes, under this status cell.
pub(crate) fn is_open<P: Part>(status: u8, address: u32) -> bool
    ensures { result ≡ page_open P.shape status (page_of P.shape address) }
{
    base_of::<P>(Target::Array, address) < protected_from(array_len::<P>(), status)
}
