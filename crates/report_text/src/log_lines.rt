ghost use Rattle.std.specs.Prelude.{◌≡◌, ◌++◌, codes, OnOk};
ghost use Rattle.surw_base.specs.Lines.{number_line};
ghost use Rattle.report_text.specs.LogLines.{slot_text, slots_line};

use surw_base::{OutOfMemory, push_list_line, push_number};
use wal_log::WalLog;

// Appends the lines of the reserved slots and of the mark of the log.
pub(crate) fn push_log_lines(text: &mut Vec<u8>, log: &WalLog) -> Result<(), OutOfMemory>
    ensures { OnOk result (text.new.items ≡ text.old.items
        ++ slots_line log.now.reserved
        ++ number_line (codes "mark") log.now.mark) }
{
    push_slots_line(text, log)?;
    push_list_line(text, b"mark", &[log.durable()])
}

// Appends the line of the reserved slots.
#[tactic(auto, unfolding(crate::specs::LogLines::slots_line))]
fn push_slots_line(text: &mut Vec<u8>, log: &WalLog) -> Result<(), OutOfMemory>
    ensures { OnOk result (text.new.items ≡ text.old.items ++ slots_line log.now.reserved) }
{
    text.extend_from_slice(b"slots")?;
    for slot in 1..=log.reserved() {
        text.push(b' ')?;
        push_slot(text, log.slot(slot))?;
    }
    text.push(b'\n')?;
    Ok(())
}

// Appends the value in a slot, or `-` where it is empty.
fn push_slot(text: &mut Vec<u8>, slot: Option<u64>) -> Result<(), OutOfMemory>
    ensures { OnOk result (text.new.items ≡ text.old.items ++ slot_text slot) }
{
    match slot {
        Some(value) => push_number(text, value),
        None => {
            text.push(b'-')?;
            Ok(())
        }
    }
}

#[cfg(test)]
mod tests;
