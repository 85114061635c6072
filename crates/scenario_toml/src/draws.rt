//! The draws of a plan: from the tapes of the file, or from a seed.

ghost use Rattle.std.specs.Prelude.{◌≡◌, IfOk, option_map};
ghost use Rattle.scenario_toml.specs.Draws.{other_draws_of, selected_draws_of, stream_by, tapes_by};

use crate::entries::Entries;
use crate::{Choice, Scenario, Strategy};
use seed_draws::{AnyDraws, Seeded};
use std::alloc::Global;
use surw_base::OutOfMemory;

/// The stream of a seed for the selected draws.
pub(crate) const SELECTED_STREAM: u64 = 1;

/// The stream of a seed for the other draws.
pub(crate) const OTHER_STREAM: u64 = 2;

/// The stream of a seed for the selected draws under PCT.
pub(crate) const PCT_STREAM: u64 = 3;

impl Scenario {
    /// The selected draws of a plan under a choice. An error comes only where memory is refused.
    pub(crate) fn selected_draws(
        &self,
        alloc: Global,
        choice: &Choice,
    ) -> Result<AnyDraws, OutOfMemory>
        ensures { IfOk result (λ draws. draws ≡ selected_draws_of self.now choice.now) }
    {
        match self.tapes_by(choice) {
            Some(tapes) => tapes.selected_draws(alloc),
            None => {
                let stream = stream_by(self.strategy(choice));
                Ok(AnyDraws::Seed(Seeded::new(self.seed(choice), stream)))
            }
        }
    }

    /// The other draws of a plan under a choice. An error comes only where memory is refused.
    pub(crate) fn other_draws(
        &self,
        alloc: Global,
        choice: &Choice,
    ) -> Result<AnyDraws, OutOfMemory>
        ensures { IfOk result (λ draws. draws ≡ other_draws_of self.now choice.now) }
    {
        match self.tapes_by(choice) {
            Some(tapes) => tapes.other_draws(alloc),
            None => Ok(AnyDraws::Seed(Seeded::new(self.seed(choice), OTHER_STREAM))),
        }
    }

    // The tapes of the file, where no seed is chosen.
    fn tapes_by(&self, choice: &Choice) -> Option<&Entries>
        ensures { option_map (λ tapes. tapes.now) result ≡ tapes_by self.now choice.now }
    {
        match choice.seed {
            Some(_) => None,
            None => self.tapes.as_ref(),
        }
    }
}

// The stream of the selected draws under a strategy.
fn stream_by(strategy: Strategy) -> u64
    ensures { result ≡ stream_by strategy }
{
    match strategy {
        Strategy::Pct => PCT_STREAM,
        Strategy::Urw | Strategy::Surw | Strategy::Plain => SELECTED_STREAM,
    }
}
