ghost use Rattle.std.specs.Prelude.{◌≡◌, ◌++◌, OnOk};
ghost use Rattle.report_text.specs.MonitorLines.{monitor_text, is_judged, judged_text, monitor_line, monitor_lines};

use pure_run::Run;
use run_rules::Verdict;
use surw_base::{OutOfMemory, push_list};
use test_world::Monitor;

// Appends the lines of the monitors.
#[tactic(auto, unfolding(crate::specs::MonitorLines::monitor_lines))]
pub(crate) fn push_monitor_lines(text: &mut Vec<u8>, run: &Run) -> Result<(), OutOfMemory>
    ensures { OnOk result (text.new.items ≡ text.old.items ++ monitor_lines run.now.verdict run.now.monitors run.now.failed) }
{
    let verdict = run.verdict();
    for i in 0..run.monitors() {
        push_monitor_line(text, &verdict, &run.monitor(i), run.failed(i))?;
    }
    Ok(())
}

// Appends the line of a monitor that failed at this place, if it failed.
fn push_monitor_line(
    text: &mut Vec<u8>,
    verdict: &Verdict,
    monitor: &Monitor,
    failed: Option<u32>,
) -> Result<(), OutOfMemory>
    ensures { OnOk result (text.new.items ≡ text.old.items ++ monitor_line verdict.now monitor.now failed) }
{
    text.extend_from_slice(b"monitor ")?;
    push_monitor(text, monitor)?;
    text.push(b' ')?;
    if is_judged(verdict, monitor) {
        push_judged(text, failed)?;
    } else {
        text.extend_from_slice(b"unjudged")?;
    }
    text.push(b'\n')?;
    Ok(())
}

// Whether a monitor is judged: one of a cell only where each thread has ended.
fn is_judged(verdict: &Verdict, monitor: &Monitor) -> bool
    ensures { result ≡ is_judged verdict.now monitor.now }
{
    match monitor {
        Monitor::CellEnd { .. } => matches!(verdict, Verdict::Ended),
        _ => true,
    }
}

// Appends what a monitor watches for.
fn push_monitor(text: &mut Vec<u8>, monitor: &Monitor) -> Result<(), OutOfMemory>
    ensures { OnOk result (text.new.items ≡ text.old.items ++ monitor_text monitor.now) }
{
    match *monitor {
        Monitor::WriteAhead => push_list(text, b"write_ahead", &[]),
        Monitor::LogWhole => push_list(text, b"log_whole", &[]),
        Monitor::Expect => push_list(text, b"expect", &[]),
        Monitor::CellEnd { cell, value } => {
            push_list(text, b"cell_end", &[u64::from(cell), value])
        }
    }
}

// Appends whether a monitor held.
fn push_judged(text: &mut Vec<u8>, failed: Option<u32>) -> Result<(), OutOfMemory>
    ensures { OnOk result (text.new.items ≡ text.old.items ++ judged_text failed) }
{
    match failed {
        Some(place) => push_list(text, b"failed after", &[u64::from(place)]),
        None => push_list(text, b"held", &[]),
    }
}

#[cfg(test)]
mod tests;
