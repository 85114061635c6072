ghost use Rattle.std.specs.Prelude.{IfOk, IfErr};
ghost use Rattle.surw_cli.specs.DrawsAnswer.{draws_answer};
ghost use Rattle.surw_cli.specs.Reached.{report_answer};
ghost use Rattle.surw_cli.specs.Stop.{IsStopOf};

use crate::report::Report;
use crate::status::Status;
use crate::stop::Stop;
use draw_split::draws_of;
use order_text::{draws_text, read_draws_file};
use std::alloc::Global;

/// The report of the job `draws` over the bytes of its file: the draws that name the order and the offsets.
pub(crate) fn report_of_draws(alloc: Global, bytes: &[u8]) -> Result<Report, Stop>
    ensures report { IfOk result (λ report. draws_answer bytes.now (report_answer report)) }
    ensures stopped { IfErr result (IsStopOf (draws_answer bytes.now)) }
{
    let file = read_draws_file(alloc, bytes)?;
    let draws = draws_of(alloc, file.counts.as_slice(), &file.split)?;
    let text = draws_text(alloc, draws.as_slice())?;
    Ok(Report {
        status: Status::Done,
        text,
        saved: None,
    })
}
