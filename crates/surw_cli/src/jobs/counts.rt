ghost use Rattle.std.specs.Prelude.{◌≡◌, IfOk, IfErr, length};
ghost use Rattle.scenario_toml.specs.State.{HasCounts};
ghost use Rattle.surw_cli.specs.Counts.{rule_by, counted_by, AreCounts, IsUncounted};

use crate::jobs::profile::profile_of;
use draw_split::Weights;
use pure_run::{ProfileCounts, ProfileFault};
use scenario_toml::{Choice, CountsRule, Scenario, Strategy};
use std::alloc::Global;

/// The counts that a scenario is run with under a choice, one for each thread. A profile is made only where they are asked of it.
pub(crate) fn counts_of(
    alloc: Global,
    scenario: &Scenario,
    choice: &Choice,
) -> Result<Weights, ProfileFault>
    ensures counts { IfOk result (λ counts. AreCounts scenario.now choice.now counts) }
    ensures each { IfOk result (λ counts. length counts ≡ length scenario.now.routines) }
    ensures stopped { IfErr result (IsUncounted scenario.now choice.now) }
{
    let strategy = scenario.strategy(choice);
    match rule_of(scenario, strategy) {
        CountsRule::Given(counts) => Ok(counts),
        CountsRule::Profile => {
            let found = profile_of(alloc, scenario, scenario.seed(choice))?;
            Ok(counted(strategy, found))
        }
    }
}

// Where they come from: the plain strategy looks at none, so under it zeros are given.
fn rule_of(scenario: &Scenario, strategy: Strategy) -> CountsRule
    ensures same { result ≡ rule_by strategy scenario.now }
    ensures each { HasCounts result (length scenario.now.routines) }
{
    match strategy {
        Strategy::Urw | Strategy::Surw | Strategy::Pct => scenario.counts(),
        Strategy::Plain => CountsRule::Given(scenario.no_counts()),
    }
}

// What a strategy counts: SURW the selected events, each other strategy all events.
fn counted(strategy: Strategy, found: ProfileCounts) -> Weights
    ensures { result ≡ counted_by strategy found.selected found.all }
{
    match strategy {
        Strategy::Surw => found.selected,
        Strategy::Urw | Strategy::Pct | Strategy::Plain => found.all,
    }
}
