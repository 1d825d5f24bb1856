// What a chip holds besides its cells.

// The output Q, by its numbers; of the last bit shifted, high impedance says that there is none.
#[derive(Clone, Copy)]
pub enum Level {
    Low = 0,
    High = 1,
    Float = 2,
}

// An event that is not malformed; true is high.
#[derive(Clone, Copy)]
pub enum Event {
    Select(bool),
    Clock(bool),
    Data(bool),
    Protect(bool),
    Hold(bool),
    CycleEnd,
    Power,
}

// The instructions by their bytes; A10 of the address tells the two under one byte apart.
#[derive(Clone, Copy)]
pub enum Instruction {
    Wren,
    Wrdi,
    Rdsr,
    Wrsr,
    Read,
    Write,
    RdidRdls,
    WridLid,
    Rduid,
    Unknown,
}

// What an instruction that takes an address does with it.
#[derive(Clone, Copy)]
pub enum Access {
    Read,
    Write,
    ReadIdent,
    WriteIdent,
    ReadUnique,
}

// What a read puts out.
#[derive(Clone, Copy)]
pub enum Region {
    Array,
    Ident,
    Unique,
    Lock,
}

// What a write goes to.
#[derive(Clone, Copy)]
pub enum Target {
    Array,
    Ident,
    Status,
    Lock,
}

// An identification page by its length: 128 or 256 bytes.
#[derive(Clone, Copy)]
pub enum IdentPage {
    Short,
    Long,
}

// Whole data bytes so far.
#[derive(Clone, Copy)]
pub enum Got {
    Nothing,
    One,
    More,
}

// A write on its way in. `wel` is the latch at the eighth bit, `start` the raw address, `at` the place in the page of the
// next byte, `last` that of the page's last, `bit` and `value` the byte being latched. The bytes are fixed memory: no heap.
#[derive(Clone, Copy)]
pub struct Page {
    pub target: Target,
    pub wel: bool,
    pub start: u32,
    pub at: u8,
    pub last: u8,
    pub bit: u8,
    pub value: u8,
    pub got: Got,
    pub bytes: [Option<u8>; 256],
}

// How far a stretch has come: bits and value so far of instruction or address, then what the instruction does. `Status`
// and `Output` have the bit of the output byte that the next fall shifts, `Output` the raw address of that byte.
#[derive(Clone, Copy)]
pub enum Phase {
    Deselected,
    Instruction(u8, u8),
    Ignored,
    Enable,
    Disable,
    Status(u8),
    Address(Access, bool, u8, u32),
    Output(Region, u32, u8),
    Input(Page),
}

// A write that waits for its cycle to end; its bytes are fixed memory too.
#[derive(Clone, Copy)]
pub struct Pending {
    pub target: Target,
    pub start: u32,
    pub bytes: [Option<u8>; 256],
}

// The levels of C, D, W and HOLD; that of S is in the phase.
#[derive(Clone, Copy, PartialEq)]
pub struct Pins {
    pub clock: bool,
    pub input: bool,
    pub protect: bool,
    pub hold: bool,
}

// The output side: held, the last bit shifted, and the byte being shifted out as it was sampled. No `Option` of the bit is
// plainer, since the bit that a hold hides comes back when it ends.
#[derive(Clone, Copy)]
pub struct Shift {
    pub held: bool,
    pub shown: Level,
    pub sample: u8,
}
