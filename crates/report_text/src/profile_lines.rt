ghost use Rattle.std.specs.Prelude.{◌≡◌, ◌++◌, IfOk, OnOk};
ghost use Rattle.report_text.specs.ProfileText.{profile_text};
ghost use Rattle.surw_base.specs.Lines.{list_line};

use pure_run::ProfileCounts;
use std::alloc::Global;
use surw_base::{OutOfMemory, push_item};

// Room for both lines, whatever the counts are.
const PROFILE_ROOM: usize = 256;

/// The lines of a profile: how many selected events each thread made, and how many events. An error comes only where
/// memory is refused.
pub fn profile_text(alloc: Global, counts: &ProfileCounts) -> Result<Vec<u8>, OutOfMemory>
    ensures { IfOk result (λ text. text.items ≡ profile_text counts.now.selected counts.now.all) }
{
    let mut text = Vec::with_capacity(alloc, PROFILE_ROOM)?;
    push_counts_line(&mut text, b"selected", counts.selected.as_slice())?;
    push_counts_line(&mut text, b"all", counts.all.as_slice())?;
    Ok(text)
}

// Appends the line of a word and then a count for each thread.
#[tactic(auto, unfolding(surw_base::specs::Lines::list_line))]
fn push_counts_line(text: &mut Vec<u8>, word: &[u8], counts: &[u32]) -> Result<(), OutOfMemory>
    ensures { OnOk result (text.new.items ≡ text.old.items ++ list_line word.now counts.now) }
{
    text.extend_from_slice(word)?;
    for count in counts {
        push_item(text, u64::from(*count))?;
    }
    text.push(b'\n')?;
    Ok(())
}

#[cfg(test)]
mod tests;
