ghost use Rattle.std.specs.Prelude.{◌≡◌, ◌≤◌, ◌⊎◌, ◌∷◌, length, IfOk, IfErr};
ghost use Rattle.replay_text.specs.Lines.{whole_lines, unfinished};
ghost use Rattle.replay_text.specs.Reading.{asked_of, if_ended, saved_of};
ghost use Rattle.replay_text.specs.SavedRun.{IsSavedRun};
ghost use Rattle.surw_base.specs.declared.limits.TheConstants.{STEPS};

use crate::end_line::is_end;
use crate::entry_line::read_entry;
use crate::name_line::read_name;
use crate::next_line::next_line;
use crate::{ReplayFault, Saved};
use std::alloc::Global;
use surw_base::STEPS;
use walk_rules::{Asked, AskedList};

/// The saved run of which this is the text. A fault is the first from the front.
pub fn read_replay(alloc: Global, text: &[u8]) -> Result<Saved, ReplayFault>
    ensures found { IfOk result (λ saved. saved_of text.now ≡ Ok saved) }
    ensures fault { IfErr result (λ fault. (fault ≡ ReplayFault.OutOfMemory) ⊎ (saved_of text.now ≡ Err fault)) }
    ensures within { IfOk result IsSavedRun }
{
    let body = match text.strip_prefix(b"surw-replay 1\n") {
        Some(body) => body,
        None => return Err(ReplayFault::Header),
    };
    let (line, rest) = match next_line(body) {
        Some(cut) => cut,
        None => return Err(ReplayFault::NoEnd),
    };
    let name = match read_name(line) {
        Some(name) => name,
        None => return Err(ReplayFault::Line { number: 2 }),
    };
    match read_asked(alloc, rest) {
        Ok(asked) => Ok(Saved::new(name, asked)),
        Err(fault) => Err(fault),
    }
}

// The entries of the lines behind the name, up to the end of the text.
fn read_asked(alloc: Global, text: &[u8]) -> Result<AskedList, ReplayFault>
    ensures found { IfOk result (λ asked. asked_of (whole_lines text.now) (unfinished text.now) ≡ Ok asked) }
    ensures fault { IfErr result (λ fault. (fault ≡ ReplayFault.OutOfMemory) ⊎ (asked_of (whole_lines text.now) (unfinished text.now) ≡ Err fault)) }
{
    let mut entries = Vec::new(alloc);
    let mut rest = text;
    while let Some((line, after)) = next_line(rest) {
        match read_entry(line) {
            Some(entry) => {
                if entries.len() == STEPS as usize {
                    return Err(ReplayFault::TooMany { number: STEPS + 3 });
                }
                entries.push(entry)?;
                rest = after;
            }
            None => return ended(entries, line, after),
        }
    }
    Err(ReplayFault::NoEnd)
}

// These entries, where the line behind them is that of the end and nothing follows it.
fn ended(entries: Vec<Asked>, line: &[u8], after: &[u8]) -> Result<AskedList, ReplayFault>
    requires { length entries.items ≤ STEPS }
    ensures found { IfOk result (λ asked. if_ended entries.items (line.now ∷ whole_lines after.now) (unfinished after.now) ≡ Ok asked) }
    ensures fault { IfErr result (λ fault. if_ended entries.items (line.now ∷ whole_lines after.now) (unfinished after.now) ≡ Err fault) }
{
    let count = entries.len() as u32;
    if !is_end(line, count) {
        return Err(ReplayFault::Line { number: count + 3 });
    }
    if !after.is_empty() {
        return Err(ReplayFault::Line { number: count + 4 });
    }
    Ok(AskedList::new(entries))
}
