// A chip: its cells are in the backing, the rest of its state in the unit.
use rules::state::{Pending, Phase, Pins, Shift};
use std::marker::PhantomData;

// What a chip holds besides its cells: its levels, the write enable latch, the cycle's write, the stretch and the output.
#[derive(Clone, Copy)]
pub(crate) struct Unit {
    pub(crate) pins: Pins,
    pub(crate) wel: bool,
    pub(crate) cycle: Option<Pending>,
    pub(crate) stretch: Phase,
    pub(crate) shift: Shift,
}

#[derive(Drop)]
pub struct Chip<'a, P, B> {
    pub(crate) backing: &'a mut B,
    pub(crate) unit: Unit,
    pub(crate) part: PhantomData<P>,
}
