ghost use Rattle.std.specs.Prelude.{◌≡◌, ◌++◌, IfOk, OnOk};
ghost use Rattle.report_text.specs.Report.{report_text, summary_text};
ghost use Rattle.report_text.specs.StepLines.{steps_text};

use crate::counts::{push_counts, push_order_line};
use crate::monitor_lines::push_monitor_lines;
use crate::next_lines::push_next_lines;
use crate::steps::push_step_lines;
use crate::verdict_line::push_verdict_line;
use crate::world_lines::push_world_lines;
use pure_run::Run;
use std::alloc::Global;
use surw_base::OutOfMemory;

// Room for the lines of a usual run but those of its steps.
const SUMMARY_ROOM: usize = 1024;

// Room for what an entry usually adds to a summary: a thread in the order.
const ORDER_ROOM: usize = 3;

// Room for the usual line of a step.
const STEP_ROOM: usize = 40;

/// The text of a run: its summary, and then the lines of its steps. An error comes only where memory is
/// refused.
pub fn report(alloc: Global, run: &Run) -> Result<Vec<u8>, OutOfMemory>
    ensures { IfOk result (λ text. text.items ≡ report_text run.now) }
{
    let steps = run.journal().len();
    let mut text = Vec::with_capacity(alloc, SUMMARY_ROOM + (ORDER_ROOM + STEP_ROOM) * steps)?;
    push_summary(&mut text, run)?;
    push_step_lines(&mut text, run.journal())?;
    Ok(text)
}

/// The lines of a run but those of its steps: the verdict, what is counted, the world at the end and the monitors.
/// An error comes only where memory is refused.
pub fn summary(alloc: Global, run: &Run) -> Result<Vec<u8>, OutOfMemory>
    ensures { IfOk result (λ text. text.items ≡ summary_text run.now) }
{
    let steps = run.journal().len();
    let mut text = Vec::with_capacity(alloc, SUMMARY_ROOM + ORDER_ROOM * steps)?;
    push_summary(&mut text, run)?;
    Ok(text)
}

/// The lines of the steps of a run alone, one for each entry of its journal. An error comes only where memory is
/// refused.
pub fn step_lines(alloc: Global, run: &Run) -> Result<Vec<u8>, OutOfMemory>
    ensures { IfOk result (λ text. text.items ≡ steps_text run.now.journal) }
{
    let journal = run.journal();
    let mut text = Vec::with_capacity(alloc, STEP_ROOM * journal.len())?;
    push_step_lines(&mut text, journal)?;
    Ok(text)
}

// Appends the lines of a run but those of its steps.
fn push_summary(text: &mut Vec<u8>, run: &Run) -> Result<(), OutOfMemory>
    ensures { OnOk result (text.new.items ≡ text.old.items ++ summary_text run.now) }
{
    push_verdict_line(text, &run.verdict())?;
    push_counts(text, run)?;
    push_order_line(text, run)?;
    push_next_lines(text, run)?;
    push_world_lines(text, run.world())?;
    push_monitor_lines(text, run)
}
