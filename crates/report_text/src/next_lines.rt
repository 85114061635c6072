ghost use Rattle.std.specs.Prelude.{◌≡◌, ◌++◌, OnOk};
ghost use Rattle.report_text.specs.NextLines.{next_line, next_lines};

use event_class::{Event, push_event};
use pure_run::Run;
use surw_base::{OutOfMemory, ThreadNo, push_list};

// Appends a line for each thread that announces an event at the end.
#[tactic(auto, unfolding(crate::specs::NextLines::next_lines))]
pub(crate) fn push_next_lines(text: &mut Vec<u8>, run: &Run) -> Result<(), OutOfMemory>
    ensures { OnOk result (text.new.items ≡ text.old.items ++ next_lines run.now.words) }
{
    for number in 0..run.threads() {
        let thread = ThreadNo::new(number as u8).unwrap();
        push_next_line(text, thread, run.next(thread))?;
    }
    Ok(())
}

// Appends the line of the event that a thread announces, if it announces one.
fn push_next_line(
    text: &mut Vec<u8>,
    thread: ThreadNo,
    next: Option<Event>,
) -> Result<(), OutOfMemory>
    ensures { OnOk result (text.new.items ≡ text.old.items ++ next_line thread next) }
{
    if let Some(event) = next {
        push_list(text, b"next", &[u64::from(thread.get())])?;
        text.push(b' ')?;
        push_event(text, &event)?;
        text.push(b'\n')?;
    }
    Ok(())
}

#[cfg(test)]
mod tests;
