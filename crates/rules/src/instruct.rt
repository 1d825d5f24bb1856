// The eighth bit of a stretch: which instruction it is, and what becomes of it.
ghost use Rattle.std.specs.Prelude.{◌≡◌};
ghost use Rattle.rules.specs.Tables.{named, accepted};
ghost use Rattle.rules.specs.Rules.{begun, judged};

use super::state::{Access, Instruction, Phase, Target};

impl From<u8> for Instruction {
    ghost from_gives = { λ byte instruction. instruction ≡ named byte };

    fn from(byte: u8) -> Instruction {
        match byte {
            0x06 => Instruction::Wren,
            0x04 => Instruction::Wrdi,
            0x05 => Instruction::Rdsr,
            0x01 => Instruction::Wrsr,
            0x03 => Instruction::Read,
            0x02 => Instruction::Write,
            0x83 => Instruction::RdidRdls,
            0x82 => Instruction::WridLid,
            0x81 => Instruction::Rduid,
            _ => Instruction::Unknown,
        }
    }
}

pub(crate) fn accepts(running: bool, instruction: Instruction) -> bool
    ensures { result ≡ accepted running instruction }
{
    match instruction {
        Instruction::Rdsr => true,
        Instruction::Unknown => false,
        _ => !running,
    }
}

// An accepted instruction; `wel` is the latch at its eighth bit.
fn begin(wel: bool, instruction: Instruction) -> Phase
    ensures { result ≡ begun wel instruction }
{
    match instruction {
        Instruction::Wren => Phase::Enable,
        Instruction::Wrdi => Phase::Disable,
        Instruction::Rdsr => Phase::Status(0),
        Instruction::Wrsr => Phase::input(Target::Status, wel, 0, 0, 0),
        Instruction::Read => Phase::Address(Access::Read, wel, 0, 0),
        Instruction::Write => Phase::Address(Access::Write, wel, 0, 0),
        Instruction::RdidRdls => Phase::Address(Access::ReadIdent, wel, 0, 0),
        Instruction::WridLid => Phase::Address(Access::WriteIdent, wel, 0, 0),
        Instruction::Rduid => Phase::Address(Access::ReadUnique, wel, 0, 0),
        Instruction::Unknown => Phase::Ignored,
    }
}

pub fn judge(running: bool, wel: bool, byte: u8) -> Phase
    ensures { result ≡ judged (accepted running (named byte)) wel (named byte) }
{
    let instruction = Instruction::from(byte);
    if accepts(running, instruction) {
        begin(wel, instruction)
    } else {
        Phase::Ignored
    }
}
