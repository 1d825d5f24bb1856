// The registers that bits are pushed into, of 8 and of 24 bits.
ghost use Rattle.std.specs.Prelude.{◌≡◌};
ghost use Rattle.rules.specs.Rules.{pushed, pushed_address};

// Two functions: one with its modulus as a const parameter would have to ask that it is not 0, and no call asks anything.
pub fn push(value: u8, d: bool) -> u8
    ensures { result ≡ pushed value d }
{
    value % 128 * 2 + u8::from(d)
}

pub fn push_address(value: u32, d: bool) -> u32
    ensures { result ≡ pushed_address value d }
{
    value % 8388608 * 2 + u32::from(d)
}
