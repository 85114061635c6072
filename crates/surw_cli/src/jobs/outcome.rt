ghost use Rattle.std.specs.Prelude.{◌≡◌, IfOk, IfErr};
ghost use Rattle.surw_cli.specs.Planned.{status_of_run};
ghost use Rattle.surw_cli.specs.Reached.{TellsRun};
ghost use Rattle.surw_cli.specs.declared.stop.Stop.TheVariants.{OutOfMemory};

use crate::report::{Report, SavedFile};
use crate::status::Status;
use crate::stop::Stop;
use pure_run::{Run, Verdict};
use report_text::report;
use std::alloc::Global;

/// The report of a run, with the status that it ends with and the file that is saved. It stops only where memory is
/// refused.
pub(crate) fn report_of_outcome(
    alloc: Global,
    run: &Run,
    saved: Option<SavedFile>,
) -> Result<Report, Stop>
    ensures told { IfOk result (TellsRun run.now saved) }
    ensures stopped { IfErr result (λ stop. stop ≡ OutOfMemory) }
{
    let text = report(alloc, run)?;
    Ok(Report {
        status: status_of(run),
        text,
        saved,
    })
}

/// The status that a run ends with.
pub(crate) fn status_of(run: &Run) -> Status
    ensures { result ≡ status_of_run run.now }
{
    match run.verdict() {
        Verdict::Ended if !run.any_failed() => Status::Done,
        Verdict::Ended | Verdict::Deadlock { .. } => Status::Failing,
        Verdict::WrongCount { .. } => Status::WrongCount,
        Verdict::Draw { .. } => Status::Draw,
        Verdict::Asked { .. } | Verdict::Left { .. } => Status::Asked,
        Verdict::StepLimit { .. } => Status::StepLimit,
    }
}
