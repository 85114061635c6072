ghost use Rattle.std.specs.Prelude.{IfOk, IfErr, option_map};
ghost use Rattle.scenario_toml.specs.Chosen.{HasDepth};
ghost use Rattle.surw_cli.specs.PlanAnswer.{plan_answer};
ghost use Rattle.surw_cli.specs.Reached.{report_answer};
ghost use Rattle.surw_cli.specs.Stop.{IsStopOf};

use crate::jobs::outcome::report_of_outcome;
use crate::jobs::planned::plan_of;
use crate::jobs::saving::saved_file;
use crate::report::Report;
use crate::stop::Stop;
use gate_core::{Stage, run_gated};
use scenario_toml::Choice;
use std::alloc::Global;
use std::sync::Wait;
use std::thread::Threads;

/// The report of the job `run` over the bytes of its file: the run of its scenario under a choice, made on threads
/// of its own, and its file where a name is given to save it to.
pub(crate) fn report_of_run<H: Threads + Wait + Sync, G: Stage>(
    rt: &H,
    alloc: Global,
    choice: &Choice,
    save: Option<&str>,
    bytes: &[u8],
    stage: &G,
) -> Result<Report, Stop>
    requires { HasDepth choice.now }
    ensures report { IfOk result (λ report. plan_answer choice.now (option_map (λ name. name.now) save.entry) bytes.now (report_answer report)) }
    ensures stopped { IfErr result (IsStopOf (plan_answer choice.now (option_map (λ name. name.now) save.entry) bytes.now)) }
{
    let plan = plan_of(alloc, choice, bytes)?;
    let run = run_gated(rt, alloc, &plan, stage)?;
    let saved = saved_file(alloc, save, bytes, &run)?;
    report_of_outcome(alloc, &run, saved)
}
