ghost use Rattle.std.specs.Prelude.{IfOk, IfErr};
ghost use Rattle.surw_cli.specs.CheckAnswer.{check_answer};
ghost use Rattle.surw_cli.specs.Reached.{report_answer};
ghost use Rattle.surw_cli.specs.Stop.{IsStopOf};

use crate::report::Report;
use crate::status::Status;
use crate::stop::Stop;
use replay_text::{read_replay, replay_summary};
use std::alloc::Global;

/// The report of the job `check` over the bytes of its file: what the saved run tells.
pub(crate) fn report_of_check(alloc: Global, bytes: &[u8]) -> Result<Report, Stop>
    ensures report { IfOk result (λ report. check_answer bytes.now (report_answer report)) }
    ensures stopped { IfErr result (IsStopOf (check_answer bytes.now)) }
{
    let saved = read_replay(alloc, bytes)?;
    let text = replay_summary(alloc, &saved)?;
    Ok(Report {
        status: Status::Done,
        text,
        saved: None,
    })
}
