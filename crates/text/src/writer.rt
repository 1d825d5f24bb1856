// A writer that lays byte strings and numbers one after another into a buffer, cut off at its end.
// Not `write!`: it promises its text only where it answers `Ok`, and a writer never fails.
ghost use Rattle.std.specs.Prelude.{◌≡◌, [], decimal};
ghost use Rattle.text.specs.Writers.{Holds, Wrote};

// No heap: the buffer is the caller's, and the place of the next byte stands beside it.
#[derive(Drop)]
pub struct Writer<'a> {
    pub(crate) out: &'a mut [u8],
    pub(crate) at: usize,
}

impl<'a> Writer<'a> {
    #[tactic(auto, using(crate::proofs::Laying::overlaid_none))]
    pub fn new(out: &'a mut [u8]) -> Writer<'a>
        ensures holds { Holds out.old [] result }
        ensures kept { result.out.ghost_name ≡ out.entry.ghost_name }
    {
        Writer { out, at: 0 }
    }

    pub fn bytes(&mut self, text: &[u8])
        ensures { Wrote self.old text.now self.new }
    {
        let Writer { out, at } = self;
        *at += crate::lay(out, *at, text);
    }

    // Not by `bytes`: `decimal` lays the digits, so that its contract and its test hold them.
    pub fn number(&mut self, n: usize)
        ensures { Wrote self.old (decimal n) self.new }
    {
        let Writer { out, at } = self;
        *at += crate::decimal(out, *at, n);
    }

    // How many bytes it wrote so far.
    pub fn written(&self) -> usize
        ensures { result ≡ self.now.at }
    {
        self.at
    }
}
