ghost use Rattle.std.specs.Prelude.{◌≡◌, ◌++◌, OnOk};
ghost use Rattle.report_text.specs.VerdictLine.{fault_text, announced_text, verdict_text, verdict_line};

use event_class::{Event, push_event};
use run_rules::Verdict;
use seed_draws::DrawFault;
use surw_base::{OutOfMemory, ThreadNo, push_list};

// Appends the line of a verdict.
#[tactic(auto, unfolding(crate::specs::VerdictLine::verdict_line))]
pub(crate) fn push_verdict_line(text: &mut Vec<u8>, verdict: &Verdict) -> Result<(), OutOfMemory>
    ensures { OnOk result (text.new.items ≡ text.old.items ++ verdict_line verdict.now) }
{
    text.extend_from_slice(b"verdict ")?;
    push_verdict(text, verdict)?;
    text.push(b'\n')?;
    Ok(())
}

// Appends a verdict.
fn push_verdict(text: &mut Vec<u8>, verdict: &Verdict) -> Result<(), OutOfMemory>
    ensures { OnOk result (text.new.items ≡ text.old.items ++ verdict_text verdict.now) }
{
    match *verdict {
        Verdict::Ended => push_list(text, b"ended", &[]),
        Verdict::Deadlock { step } => push_list(text, b"deadlock", &[u64::from(step)]),
        Verdict::WrongCount {
            step,
            thread,
            counted,
            seen,
        } => push_wrong_count(text, step, thread, counted, seen),
        Verdict::Draw { step, fault } => push_draw(text, step, &fault),
        Verdict::Asked {
            step,
            thread,
            event,
            announced,
        } => push_asked(text, step, thread, &event, &announced),
        Verdict::Left { step, thread } => {
            push_list(text, b"left", &[u64::from(step), u64::from(thread.get())])
        }
        Verdict::StepLimit { step } => push_list(text, b"step_limit", &[u64::from(step)]),
    }
}

// Appends the verdict on a thread that was counted wrongly.
fn push_wrong_count(
    text: &mut Vec<u8>,
    step: u32,
    thread: ThreadNo,
    counted: u32,
    seen: u32,
) -> Result<(), OutOfMemory>
    ensures { OnOk result (text.new.items ≡ text.old.items ++ verdict_text (Verdict.WrongCount step thread counted seen)) }
{
    push_list(
        text,
        b"wrong_count",
        &[
            u64::from(step),
            u64::from(thread.get()),
            u64::from(counted),
            u64::from(seen),
        ],
    )
}

// Appends the verdict on draws that were refused.
fn push_draw(text: &mut Vec<u8>, step: u32, fault: &DrawFault) -> Result<(), OutOfMemory>
    ensures { OnOk result (text.new.items ≡ text.old.items ++ verdict_text (Verdict.Draw step fault.now)) }
{
    push_list(text, b"draw", &[u64::from(step)])?;
    text.push(b' ')?;
    push_fault(text, fault)
}

// Appends why a source of draws refused.
fn push_fault(text: &mut Vec<u8>, fault: &DrawFault) -> Result<(), OutOfMemory>
    ensures { OnOk result (text.new.items ≡ text.old.items ++ fault_text fault.now) }
{
    match *fault {
        DrawFault::Short { place } => push_list(text, b"short", &[u64::from(place)]),
        DrawFault::Large { place, kept, below } => {
            push_list(text, b"large", &[u64::from(place), kept, below])
        }
    }
}

// Appends the verdict on an entry that was asked and can't be made.
fn push_asked(
    text: &mut Vec<u8>,
    step: u32,
    thread: ThreadNo,
    event: &Event,
    announced: &Option<Event>,
) -> Result<(), OutOfMemory>
    ensures { OnOk result (text.new.items ≡ text.old.items ++ verdict_text (Verdict.Asked step thread event.now announced.now)) }
{
    push_list(text, b"asked", &[u64::from(step), u64::from(thread.get())])?;
    text.push(b' ')?;
    push_event(text, event)?;
    text.extend_from_slice(b"; announced ")?;
    push_announced(text, announced)
}

// Appends the event that is announced.
fn push_announced(text: &mut Vec<u8>, announced: &Option<Event>) -> Result<(), OutOfMemory>
    ensures { OnOk result (text.new.items ≡ text.old.items ++ announced_text announced.now) }
{
    match announced {
        Some(event) => push_event(text, event),
        None => {
            text.extend_from_slice(b"nothing")?;
            Ok(())
        }
    }
}

#[cfg(test)]
mod tests;
