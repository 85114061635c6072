ghost use Rattle.std.specs.Prelude.{◌≡◌, ◌<◌, ◌++◌, All, codes, length, OnOk};
ghost use Rattle.std.specs.Fmt.{decimal};
ghost use Rattle.page_cache.specs.Cache.{held_in};
ghost use Rattle.surw_base.specs.Lines.{list_line};
ghost use Rattle.report_text.specs.CacheLines.{frame_item, frames_line, pages_line};

use page_cache::{PageCache, Vec16};
use surw_base::{OutOfMemory, push_item, push_number};
use test_world::World;

// Appends the lines of the frames of the cache, and of the pages of its disk.
pub(crate) fn push_cache_lines(text: &mut Vec<u8>, world: &World) -> Result<(), OutOfMemory>
    ensures { OnOk result (text.new.items ≡ text.old.items
        ++ list_line (codes "free") world.now.cache.free
        ++ frames_line (codes "clean") world.now.cache world.now.cache.clean
        ++ frames_line (codes "dirty") world.now.cache world.now.cache.dirty
        ++ pages_line world.now.cache.disk) }
{
    let cache = world.cache();
    push_free_line(text, &cache.free())?;
    push_frames_line(text, b"clean", cache, &cache.clean())?;
    push_frames_line(text, b"dirty", cache, &cache.dirty())?;
    push_pages_line(text, world)
}

// Appends the line of the free frames.
#[tactic(auto, unfolding(surw_base::specs::Lines::list_line))]
fn push_free_line(text: &mut Vec<u8>, free: &Vec16) -> Result<(), OutOfMemory>
    ensures { OnOk result (text.new.items ≡ text.old.items ++ list_line (codes "free") free.now) }
{
    text.extend_from_slice(b"free")?;
    for i in 0..free.len() {
        push_item(text, u64::from(free.at(i)))?;
    }
    text.push(b'\n')?;
    Ok(())
}

// Appends the line of a list of frames, with what each holds.
#[tactic(auto, unfolding(crate::specs::CacheLines::frames_line))]
fn push_frames_line(
    text: &mut Vec<u8>,
    word: &[u8],
    cache: &PageCache,
    frames: &Vec16,
) -> Result<(), OutOfMemory>
    requires { All (λ frame. frame < length cache.now.frames) frames.now }
    ensures { OnOk result (text.new.items ≡ text.old.items ++ frames_line word.now cache.now frames.now) }
{
    text.extend_from_slice(word)?;
    for i in 0..frames.len() {
        push_frame(text, cache, frames.at(i))?;
    }
    text.push(b'\n')?;
    Ok(())
}

// Appends a frame with what it holds, if it holds a page.
fn push_frame(text: &mut Vec<u8>, cache: &PageCache, frame: u16) -> Result<(), OutOfMemory>
    requires { frame < length cache.now.frames }
    ensures { OnOk result (text.new.items ≡ text.old.items ++ frame_item frame (held_in cache.now frame)) }
{
    if let Some((page, value, stamp)) = cache.frame(frame) {
        push_item(text, u64::from(frame))?;
        text.push(b':')?;
        push_number(text, u64::from(page))?;
        text.push(b'/')?;
        push_content(text, value, stamp)?;
    }
    Ok(())
}

// Appends the line of the pages of the disk.
#[tactic(auto, unfolding(crate::specs::CacheLines::pages_line))]
fn push_pages_line(text: &mut Vec<u8>, world: &World) -> Result<(), OutOfMemory>
    ensures { OnOk result (text.new.items ≡ text.old.items ++ pages_line world.now.cache.disk) }
{
    let cache = world.cache();
    text.extend_from_slice(b"pages")?;
    for page in 0..world.size().pages {
        let (value, stamp) = cache.page(page);
        text.push(b' ')?;
        push_content(text, value, stamp)?;
    }
    text.push(b'\n')?;
    Ok(())
}

// Appends a value and a stamp.
fn push_content(text: &mut Vec<u8>, value: u64, stamp: u64) -> Result<(), OutOfMemory>
    ensures { OnOk result (text.new.items ≡ text.old.items ++ decimal value ++ codes "/" ++ decimal stamp) }
{
    push_number(text, value)?;
    text.push(b'/')?;
    push_number(text, stamp)
}

#[cfg(test)]
mod tests;
