ghost use Rattle.std.specs.Prelude.{◌≡◌, IfOk};
ghost use Rattle.replay_text.specs.Summary.{summary_text};

use crate::{Saved, name_digits};
use std::alloc::Global;
use surw_base::{OutOfMemory, push_number};

/// What is told of a saved run: the version of its text, the name of its scenario, and how many entries it has. An
/// error comes only where memory is refused.
pub fn replay_summary(alloc: Global, saved: &Saved) -> Result<Vec<u8>, OutOfMemory>
    ensures { IfOk result (λ text. text.items ≡ summary_text saved.now) }
{
    let mut text = Vec::new(alloc);
    text.extend_from_slice(b"replay 1\nscenario ")?;
    text.extend_from_slice(&name_digits(saved.name()))?;
    text.extend_from_slice(b"\nentries ")?;
    push_number(&mut text, u64::from(saved.asked().len()))?;
    text.push(b'\n')?;
    Ok(text)
}
