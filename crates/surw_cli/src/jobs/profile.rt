ghost use Rattle.std.specs.Prelude.{◌≡◌, IfOk, IfErr};
ghost use Rattle.surw_cli.specs.ProfileAnswer.{profile_answer};
ghost use Rattle.surw_cli.specs.Profiled.{IsProfileOf, IsUnprofiled};
ghost use Rattle.surw_cli.specs.Reached.{report_answer};
ghost use Rattle.surw_cli.specs.Stop.{IsStopOf};

use crate::jobs::choice::PLAIN_CHOICE;
use crate::report::Report;
use crate::status::Status;
use crate::stop::Stop;
use pure_run::{ProfileCounts, ProfileFault, profile};
use report_text::profile_text;
use scenario_toml::{Choice, Scenario, read_scenario};
use std::alloc::Global;

/// The report of the job `profile` over the bytes of its file: the profile of its scenario, by the seed that is
/// chosen, if one is.
pub(crate) fn report_of_profile(
    alloc: Global,
    choice: &Choice,
    bytes: &[u8],
) -> Result<Report, Stop>
    ensures report { IfOk result (λ report. profile_answer choice.now bytes.now (report_answer report)) }
    ensures stopped { IfErr result (IsStopOf (profile_answer choice.now bytes.now)) }
{
    let scenario = read_scenario(alloc, bytes)?;
    let found = profile_of(alloc, &scenario, scenario.seed(choice))?;
    let text = profile_text(alloc, &found)?;
    Ok(Report {
        status: Status::Done,
        text,
        saved: None,
    })
}

/// The profile of a scenario, made by this seed. It is that of a plan under the plain strategy, whatever the file's
/// strategy and counts, so the events selected are those that the file says.
pub(crate) fn profile_of(
    alloc: Global,
    scenario: &Scenario,
    seed: u64,
) -> Result<ProfileCounts, ProfileFault>
    ensures found { IfOk result (λ found. IsProfileOf scenario.now seed found.selected found.all) }
    ensures stopped { IfErr result (IsUnprofiled scenario.now seed) }
{
    let plan = scenario.plan(alloc, &PLAIN_CHOICE, &scenario.no_counts())?;
    profile(alloc, &plan, seed)
}
