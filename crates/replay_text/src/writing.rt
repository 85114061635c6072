ghost use Rattle.std.specs.Prelude.{◌≡◌, IfOk, OnOk};
ghost use Rattle.replay_text.specs.SavedRun.{IsSavedRun};
ghost use Rattle.replay_text.specs.SavedText.{saved_text};

use crate::Saved;
use crate::end_line::push_end;
use crate::entry_line::make_entry_line;
use crate::name_line::push_name;
use line_text::Line;
use std::alloc::Global;
use surw_base::OutOfMemory;

/// The text of a saved run.
#[tactic(auto, unfolding(crate::specs::SavedText::saved_text))]
pub fn write_replay(alloc: Global, saved: &Saved) -> Result<Vec<u8>, OutOfMemory>
    ensures text { IfOk result (λ text. text.items ≡ saved_text saved.now) }

    // What a caller needs to know of the run so that its text is read again.
    ensures within { OnOk result (IsSavedRun saved.now) }
{
    let mut text = Vec::new(alloc);
    text.extend_from_slice(b"surw-replay 1\n")?;
    push_name(&mut text, saved.name())?;
    let mut line = Line::new();
    for entry in saved.asked().as_slice() {
        make_entry_line(&mut line, entry);
        text.extend_from_slice(line.as_slice())?;
    }
    push_end(&mut text, saved.asked().len())?;
    Ok(text)
}
