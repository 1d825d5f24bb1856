// What is asked of a stretch and of a cycle.
ghost use Rattle.std.specs.Prelude.{◌≡◌};
ghost use Rattle.rules.specs.Rules.{running, is_off};

use super::state::{Pending, Phase};

// Whether a cycle runs: its write waits.
pub fn runs(cycle: &Option<Pending>) -> bool
    ensures { result ≡ running cycle.now }
{
    cycle.is_some()
}

impl Phase {
    // Whether S is high.
    pub fn is_off(&self) -> bool
        ensures { result ≡ is_off self.now }
    {
        matches!(self, Phase::Deselected)
    }
}
