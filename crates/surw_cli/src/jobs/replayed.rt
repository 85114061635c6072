ghost use Rattle.std.specs.Prelude.{◌≡◌, ◌⊎◌, IfOk, IfErr, OnOk};
ghost use Rattle.run_rules.specs.Plan.{IsValidPlan};
ghost use Rattle.surw_io.specs.Cause.{one_more};
ghost use Rattle.surw_cli.specs.ReplayAnswer.{IsReplayAnswer, IsReplayPlanned, IsReplayed, replayed_answer};
ghost use Rattle.surw_cli.specs.Stop.{IsStopAt, IsStopOf};

use crate::fetched::fetched;
use crate::jobs::saving::scenario_name;
use crate::stop::Stop;
use fault_text::Fault;
use pure_run::Plan;
use replay_text::read_replay;
use routine_kit::AnyRoutine;
use scenario_toml::{Scenario, read_scenario};
use seed_draws::AnyDraws;
use std::alloc::Global;
use surw_base::SAVED_LIMIT;
use surw_io::Shelf;

/// The plan that follows a saved run of the scenario that is in these bytes. The saved file is opened where they are
/// one.
pub(crate) fn replay_plan<F: Shelf>(
    alloc: Global,
    bytes: &[u8],
    shelf: &mut F,
    saved: &str,
) -> Result<Plan<AnyRoutine, AnyDraws, AnyDraws>, Stop>
    ensures planned { IfOk result (IsReplayed bytes.now (F.coming shelf.old saved.now)) }
    ensures valid { IfOk result IsValidPlan }
    ensures calm { OnOk result (F.in_faults shelf.new ≡ F.in_faults shelf.old) }
    ensures stopped { IfErr result
        (IsStopAt (IsReplayAnswer bytes.now (F.coming shelf.old saved.now)) (F.in_faults shelf.old) (F.in_faults shelf.new)) }
    ensures opened { (F.opens shelf.new ≡ F.opens shelf.old) ⊎ (F.opens shelf.new ≡ one_more (F.opens shelf.old)) }
    ensures made { F.made shelf.new ≡ F.made shelf.old }
    ensures out_faults { F.out_faults shelf.new ≡ F.out_faults shelf.old }
{
    let scenario = read_scenario(alloc, bytes)?;
    match fetched(alloc, shelf, saved, SAVED_LIMIT) {
        Ok(text) => plan_of_saved(alloc, bytes, &scenario, text.as_slice()),
        Err(stop) => Err(stop),
    }
}

// The plan that follows the saved run that is in these bytes, if it is of the scenario.
fn plan_of_saved(
    alloc: Global,
    bytes: &[u8],
    scenario: &Scenario,
    text: &[u8],
) -> Result<Plan<AnyRoutine, AnyDraws, AnyDraws>, Stop>
    ensures planned { IfOk result (IsReplayPlanned bytes.now scenario.now text.now) }
    ensures valid { IfOk result IsValidPlan }
    ensures stopped { IfErr result (IsStopOf (replayed_answer bytes.now scenario.now text.now)) }
{
    let saved = read_replay(alloc, text)?;
    let kept = saved.name();
    let needed = scenario_name(bytes);
    if kept != needed {
        return Err(Stop::Refused(Fault::OtherScenario { kept, needed }));
    }
    let plan = scenario.follow_plan(alloc, saved.into_asked())?;
    Ok(plan)
}
