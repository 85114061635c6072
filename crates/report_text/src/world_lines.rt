ghost use Rattle.std.specs.Prelude.{◌≡◌, ◌++◌, codes, OnOk};
ghost use Rattle.surw_base.specs.Lines.{list_line, number_line};
ghost use Rattle.report_text.specs.CacheLines.{frames_line, pages_line};
ghost use Rattle.report_text.specs.LogLines.{slots_line};
ghost use Rattle.report_text.specs.WorldLines.{holder_text, locks_line};

use crate::cache_lines::push_cache_lines;
use crate::log_lines::push_log_lines;
use surw_base::{OutOfMemory, ThreadNo, push_item, push_list_line, push_number};
use test_world::World;

// Appends the lines of the world at the end.
pub(crate) fn push_world_lines(text: &mut Vec<u8>, world: &World) -> Result<(), OutOfMemory>
    ensures { OnOk result (text.new.items ≡ text.old.items
        ++ list_line (codes "cells") world.now.cells
        ++ locks_line world.now.locks
        ++ list_line (codes "free") world.now.cache.free
        ++ frames_line (codes "clean") world.now.cache world.now.cache.clean
        ++ frames_line (codes "dirty") world.now.cache world.now.cache.dirty
        ++ pages_line world.now.cache.disk
        ++ slots_line world.now.log.reserved
        ++ number_line (codes "mark") world.now.log.mark
        ++ number_line (codes "checks") world.now.checks) }
{
    push_cells_line(text, world)?;
    push_locks_line(text, world)?;
    push_cache_lines(text, world)?;
    push_log_lines(text, world.log())?;
    push_list_line(text, b"checks", &[world.checks()])
}

// Appends the line of the values of the cells.
#[tactic(auto, unfolding(surw_base::specs::Lines::list_line))]
fn push_cells_line(text: &mut Vec<u8>, world: &World) -> Result<(), OutOfMemory>
    ensures { OnOk result (text.new.items ≡ text.old.items ++ list_line (codes "cells") world.now.cells) }
{
    text.extend_from_slice(b"cells")?;
    for cell in 0..world.size().cells {
        push_item(text, world.cell(cell))?;
    }
    text.push(b'\n')?;
    Ok(())
}

// Appends the line of the holders of the locks.
#[tactic(auto, unfolding(crate::specs::WorldLines::locks_line))]
fn push_locks_line(text: &mut Vec<u8>, world: &World) -> Result<(), OutOfMemory>
    ensures { OnOk result (text.new.items ≡ text.old.items ++ locks_line world.now.locks) }
{
    text.extend_from_slice(b"locks")?;
    for lock in 0..world.size().locks {
        text.push(b' ')?;
        push_holder(text, world.holder(lock))?;
    }
    text.push(b'\n')?;
    Ok(())
}

// Appends the thread that holds a lock, or `-` where it is free.
fn push_holder(text: &mut Vec<u8>, holder: Option<ThreadNo>) -> Result<(), OutOfMemory>
    ensures { OnOk result (text.new.items ≡ text.old.items ++ holder_text holder) }
{
    match holder {
        Some(thread) => push_number(text, u64::from(thread.get())),
        None => {
            text.push(b'-')?;
            Ok(())
        }
    }
}

#[cfg(test)]
mod tests;
