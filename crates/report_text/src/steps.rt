ghost use Rattle.std.specs.Prelude.{◌≡◌, ◌+◌, ◌≤◌, ◌++◌, length, OnOk};
ghost use Rattle.line_text.specs.declared.line.TheConstants.{LINE_ROOM};
ghost use Rattle.report_text.specs.StepLines.{forced_mark, step_line, steps_text};

use event_class::put_event;
use line_text::Line;
use run_rules::Entry;
use surw_base::OutOfMemory;

// Appends the lines of the entries.
#[tactic(auto, unfolding(crate::specs::StepLines::steps_text))]
pub(crate) fn push_step_lines(text: &mut Vec<u8>, journal: &[Entry]) -> Result<(), OutOfMemory>
    ensures { OnOk result (text.new.items ≡ text.old.items ++ steps_text journal.now) }
{
    let mut line = Line::new();
    for (k, entry) in journal.iter().enumerate() {
        make_step_line(&mut line, k as u64, entry);
        text.extend_from_slice(line.as_slice())?;
    }
    Ok(())
}

// Makes the line that of the entry of this number.
fn make_step_line(line: &mut Line, k: u64, entry: &Entry)
    ensures { line.new ≡ step_line k entry.now }
{
    line.clear();
    line.put(b"\n");
    put_mark(line, entry.forced);
    line.put_number(entry.reply);
    line.put(b" = ");
    put_event(line, &entry.event);
    line.put(b" ");
    line.put_number(u64::from(entry.thread.get()));
    line.put(b" ");
    line.put_number(k);
    line.put(b"step ");
}

// Puts the mark of a forced entry before what the line has.
fn put_mark(line: &mut Line, forced: bool)
    requires { length (forced_mark forced) + length line.old ≤ LINE_ROOM }
    ensures { line.new ≡ forced_mark forced ++ line.old }
{
    if forced {
        line.put(b" forced");
    }
}

#[cfg(test)]
mod tests;
