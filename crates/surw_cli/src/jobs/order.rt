ghost use Rattle.std.specs.Prelude.{IfOk, IfErr};
ghost use Rattle.surw_cli.specs.OrderAnswer.{order_answer};
ghost use Rattle.surw_cli.specs.Reached.{report_answer};
ghost use Rattle.surw_cli.specs.Stop.{IsStopOf};

use crate::report::Report;
use crate::status::Status;
use crate::stop::Stop;
use draw_split::order_of;
use order_text::{order_text, read_order_file};
use std::alloc::Global;

/// The report of the job `order` over the bytes of its file: the order and the offsets that the draws name.
pub(crate) fn report_of_order(alloc: Global, bytes: &[u8]) -> Result<Report, Stop>
    ensures report { IfOk result (λ report. order_answer bytes.now (report_answer report)) }
    ensures stopped { IfErr result (IsStopOf (order_answer bytes.now)) }
{
    let file = read_order_file(alloc, bytes)?;
    let split = order_of(alloc, file.counts.as_slice(), file.draws.as_slice())?;
    let text = order_text(alloc, file.counts.threads(), &split)?;
    Ok(Report {
        status: Status::Done,
        text,
        saved: None,
    })
}
