ghost use Rattle.std.specs.Prelude.{IfOk, IfErr};
ghost use Rattle.run_rules.specs.Plan.{IsValidPlan};
ghost use Rattle.scenario_toml.specs.Chosen.{HasDepth};
ghost use Rattle.surw_cli.specs.PlanAnswer.{IsUnplanned};
ghost use Rattle.surw_cli.specs.Planned.{IsPlanned};
ghost use Rattle.surw_cli.specs.Stop.{IsStopBy};

use crate::jobs::counts::counts_of;
use crate::stop::Stop;
use pure_run::Plan;
use routine_kit::AnyRoutine;
use scenario_toml::{Choice, read_scenario};
use seed_draws::AnyDraws;
use std::alloc::Global;

/// The plan of the scenario that is in these bytes under a choice, with its counts.
pub(crate) fn plan_of(
    alloc: Global,
    choice: &Choice,
    bytes: &[u8],
) -> Result<Plan<AnyRoutine, AnyDraws, AnyDraws>, Stop>
    requires { HasDepth choice.now }
    ensures planned { IfOk result (IsPlanned choice.now bytes.now) }
    ensures valid { IfOk result IsValidPlan }
    ensures stopped { IfErr result (IsStopBy (IsUnplanned choice.now bytes.now)) }
{
    let scenario = read_scenario(alloc, bytes)?;
    let counts = counts_of(alloc, &scenario, choice)?;
    let plan = scenario.plan(alloc, choice, &counts)?;
    Ok(plan)
}
