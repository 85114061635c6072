ghost use Rattle.std.specs.Prelude.{◌≡◌, ◌⊎◌};
ghost use Rattle.surw_io.specs.Cause.{one_more};
ghost use Rattle.surw_cli.specs.Reached.{ComesTo};
ghost use Rattle.surw_cli.specs.ReplayAnswer.{IsReplayAnswer};

use crate::jobs::outcome::report_of_outcome;
use crate::jobs::replayed::replay_plan;
use crate::report::Report;
use crate::stop::Stop;
use gate_core::{Stage, run_gated};
use pure_run::run_inline;
use std::alloc::Global;
use std::sync::Wait;
use std::thread::Threads;
use surw_io::Shelf;

/// The report of the job `replay` over the bytes of its file and a saved file: the run that follows it, made on this
/// thread.
pub(crate) fn report_of_replay<F: Shelf>(
    alloc: Global,
    bytes: &[u8],
    shelf: &mut F,
    saved: &str,
) -> Result<Report, Stop>
    ensures comes { ComesTo (IsReplayAnswer bytes.now (F.coming shelf.old saved.now)) (F.in_faults shelf.old) (F.in_faults shelf.new) result }
    ensures opened { (F.opens shelf.new ≡ F.opens shelf.old) ⊎ (F.opens shelf.new ≡ one_more (F.opens shelf.old)) }
    ensures made { F.made shelf.new ≡ F.made shelf.old }
    ensures out_faults { F.out_faults shelf.new ≡ F.out_faults shelf.old }
{
    let plan = replay_plan(alloc, bytes, shelf, saved)?;
    let run = run_inline(alloc, &plan)?;
    report_of_outcome(alloc, &run, None)
}

/// The same, made on threads of its own.
pub(crate) fn report_of_gated_replay<H: Threads + Wait + Sync, F: Shelf, G: Stage>(
    rt: &H,
    alloc: Global,
    bytes: &[u8],
    shelf: &mut F,
    saved: &str,
    stage: &G,
) -> Result<Report, Stop>
    ensures comes { ComesTo (IsReplayAnswer bytes.now (F.coming shelf.old saved.now)) (F.in_faults shelf.old) (F.in_faults shelf.new) result }
    ensures opened { (F.opens shelf.new ≡ F.opens shelf.old) ⊎ (F.opens shelf.new ≡ one_more (F.opens shelf.old)) }
    ensures made { F.made shelf.new ≡ F.made shelf.old }
    ensures out_faults { F.out_faults shelf.new ≡ F.out_faults shelf.old }
{
    let plan = replay_plan(alloc, bytes, shelf, saved)?;
    let run = run_gated(rt, alloc, &plan, stage)?;
    report_of_outcome(alloc, &run, None)
}
