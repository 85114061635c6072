ghost use Rattle.std.specs.Prelude.{◌≡◌};

use draw_split::Weights;

/// Where the counts of a plan come from.
#[derive(Debug, Drop)]
pub enum CountsRule {
    /// From a profile, which is a run whose events are counted.
    Profile,
    /// They are given: one for each thread.
    Given(Weights),
}

impl CountsRule {
    // An equal rule. It takes no memory.
    pub(crate) fn copy(&self) -> CountsRule
        ensures { result ≡ self.now }
    {
        match self {
            CountsRule::Profile => CountsRule::Profile,
            CountsRule::Given(counts) => CountsRule::Given(counts.copy()),
        }
    }
}
