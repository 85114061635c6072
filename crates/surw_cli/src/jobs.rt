ghost use Rattle.std.specs.Prelude.{◌≡◌};
ghost use Rattle.command_words.specs.Ask.{ask_by};
ghost use Rattle.scenario_toml.specs.Chosen.{HasDepth};
ghost use Rattle.surw_cli.specs.CommandAnswer.{IsAskAnswer, answer_to};
ghost use Rattle.surw_cli.specs.Reached.{ComesTo, OpensFor, OpensMore};

mod check;
mod choice;
mod counts;
mod draws;
mod make;
mod order;
mod outcome;
mod plan;
mod planned;
mod profile;
mod replay;
mod replayed;
mod run;
mod saving;

use crate::fetched::fetched;
use crate::files::{file_limit, saved_name};
use crate::jobs::check::report_of_check;
use crate::jobs::draws::report_of_draws;
use crate::jobs::make::report_of_make;
use crate::jobs::order::report_of_order;
use crate::jobs::plan::report_of_plan;
use crate::jobs::profile::report_of_profile;
use crate::jobs::replay::{report_of_gated_replay, report_of_replay};
use crate::jobs::run::report_of_run;
use crate::report::Report;
use crate::stop::Stop;
use command_words::{Ask, Job};
use gate_core::Stage;
use std::alloc::Global;
use std::sync::Wait;
use std::thread::Threads;
use surw_io::Shelf;

/// The report of what is asked for, made on the caller's own thread. A run is made there too, which gives the same
/// report.
pub(crate) fn report_of<F: Shelf>(alloc: Global, ask: &Ask, shelf: &mut F) -> Result<Report, Stop>
    requires { HasDepth ask.now.choice }
    ensures comes { ComesTo
        (IsAskAnswer (ask_by ask.now) (record { first = F.coming shelf.old; second = F.coming_after shelf.old }))
        (F.in_faults shelf.old) (F.in_faults shelf.new) result }
    ensures opened { OpensFor ask.now.job (F.opens shelf.old) (F.opens shelf.new) }
    ensures made { F.made shelf.new ≡ F.made shelf.old }
    ensures out_faults { F.out_faults shelf.new ≡ F.out_faults shelf.old }
{
    if matches!(ask.job, Job::Make) {
        return report_of_make(alloc, ask.number);
    }
    match fetched(alloc, shelf, ask.name, file_limit(ask.job)) {
        Ok(bytes) => report_over(alloc, ask, bytes.as_slice(), shelf),
        Err(stop) => Err(stop),
    }
}

/// The same, where a run is made on threads of its own.
pub(crate) fn report_on_threads<H: Threads + Wait + Sync, F: Shelf, G: Stage>(
    rt: &H,
    alloc: Global,
    ask: &Ask,
    shelf: &mut F,
    stage: &G,
) -> Result<Report, Stop>
    requires { HasDepth ask.now.choice }
    ensures comes { ComesTo
        (IsAskAnswer (ask_by ask.now) (record { first = F.coming shelf.old; second = F.coming_after shelf.old }))
        (F.in_faults shelf.old) (F.in_faults shelf.new) result }
    ensures opened { OpensFor ask.now.job (F.opens shelf.old) (F.opens shelf.new) }
    ensures made { F.made shelf.new ≡ F.made shelf.old }
    ensures out_faults { F.out_faults shelf.new ≡ F.out_faults shelf.old }
{
    if matches!(ask.job, Job::Make) {
        return report_of_make(alloc, ask.number);
    }
    match fetched(alloc, shelf, ask.name, file_limit(ask.job)) {
        Ok(bytes) => report_over_on_threads(rt, alloc, ask, bytes.as_slice(), shelf, stage),
        Err(stop) => Err(stop),
    }
}

// The report of what is asked for, over the bytes of its first file, made on the caller's own thread.
fn report_over<F: Shelf>(
    alloc: Global,
    ask: &Ask,
    bytes: &[u8],
    shelf: &mut F,
) -> Result<Report, Stop>
    requires { HasDepth ask.now.choice }
    ensures comes { ComesTo (answer_to (ask_by ask.now) (F.coming shelf.old) bytes.now) (F.in_faults shelf.old) (F.in_faults shelf.new) result }
    ensures opened { OpensMore ask.now.job (F.opens shelf.old) (F.opens shelf.new) }
    ensures made { F.made shelf.new ≡ F.made shelf.old }
    ensures out_faults { F.out_faults shelf.new ≡ F.out_faults shelf.old }
{
    match ask.job {
        Job::Order => report_of_order(alloc, bytes),
        Job::Draws => report_of_draws(alloc, bytes),
        Job::Profile => report_of_profile(alloc, &ask.choice, bytes),
        Job::Check => report_of_check(alloc, bytes),
        Job::Make => report_of_make(alloc, ask.number),
        Job::Plan | Job::Run => report_of_plan(alloc, &ask.choice, ask.save, bytes),
        Job::Replay => report_of_replay(alloc, bytes, shelf, saved_name(ask)),
    }
}

// The same, where a run is made on threads of its own.
fn report_over_on_threads<H: Threads + Wait + Sync, F: Shelf, G: Stage>(
    rt: &H,
    alloc: Global,
    ask: &Ask,
    bytes: &[u8],
    shelf: &mut F,
    stage: &G,
) -> Result<Report, Stop>
    requires { HasDepth ask.now.choice }
    ensures comes { ComesTo (answer_to (ask_by ask.now) (F.coming shelf.old) bytes.now) (F.in_faults shelf.old) (F.in_faults shelf.new) result }
    ensures opened { OpensMore ask.now.job (F.opens shelf.old) (F.opens shelf.new) }
    ensures made { F.made shelf.new ≡ F.made shelf.old }
    ensures out_faults { F.out_faults shelf.new ≡ F.out_faults shelf.old }
{
    match ask.job {
        Job::Run => report_of_run(rt, alloc, &ask.choice, ask.save, bytes, stage),
        Job::Replay => report_of_gated_replay(rt, alloc, bytes, shelf, saved_name(ask), stage),
        _ => report_over(alloc, ask, bytes, shelf),
    }
}
