// What the last address bit does to a stretch.
ghost use Rattle.std.specs.Prelude.{◌≡◌};
ghost use Rattle.rules.specs.Ident.{ident_length};
ghost use Rattle.rules.specs.Rules.{aimed};

use super::state::{Access, IdentPage, Phase, Region, Target};

// The last address bit: where reading or writing begins.
pub fn aim(page: IdentPage, access: Access, wel: bool, address: u32) -> Phase
    ensures { result ≡ aimed (ident_length page) access wel address }
{
    let a10 = address / 1024 % 2 == 1;
    match access {
        Access::Read => Phase::Output(Region::Array, address, 0),
        Access::Write => Phase::input(Target::Array, wel, address, (address % 256) as u8, 255),
        Access::ReadIdent if a10 => Phase::Output(Region::Lock, address, 0),
        Access::ReadIdent => Phase::Output(Region::Ident, address, 0),
        Access::WriteIdent if a10 => Phase::input(Target::Lock, wel, address, 0, 0),
        Access::WriteIdent => page.input(wel, address),
        Access::ReadUnique => Phase::Output(Region::Unique, address, 0),
    }
}
