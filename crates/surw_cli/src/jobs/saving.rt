ghost use Rattle.std.specs.Prelude.{◌≡◌, IfOk, length, option_map};
ghost use Rattle.sha2.specs.Sha256.{sha256};
ghost use Rattle.surw_base.specs.declared.limits.TheConstants.{STEPS};
ghost use Rattle.run_rules.specs.Replay.{entries_asked};
ghost use Rattle.surw_cli.specs.Reached.{to_create};
ghost use Rattle.surw_cli.specs.Saved.{saved_file};

use crate::report::SavedFile;
use pure_run::{Entry, Run};
use replay_text::{Saved, write_replay};
use sha2::{Digest, Sha256};
use std::alloc::Global;
use surw_base::OutOfMemory;
use walk_rules::{Asked, AskedList};

/// The file of a run of the scenario that is in these bytes, where a name is given to save it to. An error comes only
/// where memory is refused.
pub(crate) fn saved_file(
    alloc: Global,
    save: Option<&str>,
    bytes: &[u8],
    run: &Run,
) -> Result<Option<SavedFile>, OutOfMemory>
    ensures { IfOk result (λ saved. option_map to_create saved ≡ saved_file (option_map (λ name. name.now) save.entry) bytes.now run.now.journal) }
{
    let Some(name) = save else {
        return Ok(None);
    };
    let asked = entries_of(alloc, run.journal())?;
    let saved = Saved::new(scenario_name(bytes), AskedList::new(asked));
    let text = write_replay(alloc, &saved)?;
    Ok(Some(SavedFile {
        name: String::from_str(alloc, name)?,
        text,
    }))
}

/// The name of the scenario that is in these bytes: their digest.
pub(crate) fn scenario_name(bytes: &[u8]) -> [u8; 32]
    ensures { result ≡ sha256 bytes.now }
{
    Sha256::digest(bytes)
}

// The thread and the event of each entry.
fn entries_of(alloc: Global, journal: &[Entry]) -> Result<Vec<Asked>, OutOfMemory>
    ensures { IfOk result (λ asked. asked.items ≡ entries_asked journal.now) }
{
    let mut asked = Vec::with_capacity(alloc, journal.len())?;
    for entry in journal {
        asked.push(Asked {
            thread: entry.thread,
            event: entry.event,
        })?;
    }
    Ok(asked)
}
