// The six layers that raise faults, by their numbers.
ghost use Rattle.std.specs.Prelude.{◌≡◌};
ghost use Rattle.backing.specs.Faults.{position, OnlyLayer};

#[derive(Clone, Copy, Debug, PartialEq)]
pub enum Layer {
    Making = 1,
    Event = 2,
    Capture = 3,
    PageCopy = 4,
    Backing = 5,
    Program = 6,
}

impl From<Layer> for u8 {
    ghost from_gives = { λ layer n. (n ≡ position layer) × OnlyLayer layer n };

    fn from(layer: Layer) -> u8 {
        layer as u8
    }
}
