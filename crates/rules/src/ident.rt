// An identification page: its length, its places, and a write into it.
ghost use Rattle.std.specs.Prelude.{◌≡◌, ◌-◌, ◌%◌, ◌≤◌};
ghost use Rattle.rules.specs.declared.state.Phase.TheVariants.{Input};
ghost use Rattle.rules.specs.declared.state.Target.TheVariants.{Ident};
ghost use Rattle.rules.specs.Ident.{ident_length};
ghost use Rattle.rules.specs.Rules.{empty};

use super::state::{IdentPage, Phase, Target};

impl IdentPage {
    pub fn length(self) -> u32
        ensures value { result ≡ ident_length self }
        ensures bounds { (128 ≤ result) × (result ≤ 256) }
    {
        match self {
            IdentPage::Short => 128,
            IdentPage::Long => 256,
        }
    }

    // The place in the page of an address.
    pub fn place(self, address: u32) -> u8
        ensures { result ≡ address % ident_length self }
    {
        (address % self.length()) as u8
    }

    pub(crate) fn last(self) -> u8
        ensures { result ≡ ident_length self - 1 }
    {
        (self.length() - 1) as u8
    }

    // A write into the page begins.
    pub(crate) fn input(self, wel: bool, address: u32) -> Phase
        ensures { result ≡ Input (empty Ident wel address (address % ident_length self) (ident_length self - 1)) }
    {
        Phase::input(
            Target::Ident,
            wel,
            address,
            self.place(address),
            self.last(),
        )
    }
}
