// A part by its two constants; all places and counts follow from them.
ghost use Rattle.std.specs.Prelude.{◌≡◌, ℕ, refl};
ghost use Rattle.rules.specs.Ident.{ident_length};
ghost use Rattle.rules.specs.Shape.{Shape, Lawful};
ghost use Rattle.rules.specs.declared.state.IdentPage.{IdentPage as Ident};
ghost use Rattle.rules.specs.declared.state.IdentPage.TheVariants.{Long};
ghost use Rattle.std.proofs.Common.{lit≤, inr};

use rules::state::IdentPage;

// Three impls, of constants alone: one over a const parameter is no plainer, since an impl for every width could not show
// that each is lawful.
pub trait Part {
    const ADDRESS_BITS: u32;

    const IDENT_PAGE: IdentPage;

    ghost ADDRESS_BITS: { ℕ };

    ghost IDENT_PAGE: { Ident };

    ghost shape: { Shape };

    ghost is_shape: { shape ≡ record { bits = ADDRESS_BITS; ident = ident_length IDENT_PAGE } };

    ghost lawful: { Lawful shape };
}

pub struct Cm01;

impl Part for Cm01 {
    const ADDRESS_BITS: u32 = 17;

    const IDENT_PAGE: IdentPage = IdentPage::Long;

    ghost ADDRESS_BITS = { 17 };

    ghost IDENT_PAGE = { Long };

    ghost shape = { record { bits = 17; ident = 256 } };

    ghost is_shape = { refl };

    ghost lawful = { record { low = lit≤ tt; high = lit≤ tt; page = inr refl } };
}

pub struct Cm02;

impl Part for Cm02 {
    const ADDRESS_BITS: u32 = 18;

    const IDENT_PAGE: IdentPage = IdentPage::Long;

    ghost ADDRESS_BITS = { 18 };

    ghost IDENT_PAGE = { Long };

    ghost shape = { record { bits = 18; ident = 256 } };

    ghost is_shape = { refl };

    ghost lawful = { record { low = lit≤ tt; high = lit≤ tt; page = inr refl } };
}

pub struct Bench;

impl Part for Bench {
    const ADDRESS_BITS: u32 = 12;

    const IDENT_PAGE: IdentPage = IdentPage::Long;

    ghost ADDRESS_BITS = { 12 };

    ghost IDENT_PAGE = { Long };

    ghost shape = { record { bits = 12; ident = 256 } };

    ghost is_shape = { refl };

    ghost lawful = { record { low = lit≤ tt; high = lit≤ tt; page = inr refl } };
}
