ghost use Rattle.std.specs.Prelude.{◌≡◌, ◌≤◌, ◌∷◌, ◌++◌, [], codes, IfOk, OnOk, slice_index_or};
ghost use Rattle.surw_base.specs.Lines.{list_line};
ghost use Rattle.order_text.specs.DrawsText.{draws_text};
ghost use Rattle.order_text.specs.OrderText.{order_text};

use draw_split::Split;
use std::alloc::Global;
use surw_base::{OutOfMemory, THREADS, ThreadNo, push_item, push_list_line};

/// The text of a split: the line of its order, and a line with the offsets of each of the first `threads` threads.
pub fn order_text(alloc: Global, threads: usize, split: &Split) -> Result<Vec<u8>, OutOfMemory>
    requires { threads ≤ THREADS }
    ensures { IfOk result (λ text. text.items ≡ order_text threads split.now) }
{
    let mut text = Vec::new(alloc);
    push_order(&mut text, split.order())?;
    for number in 0..threads {
        let thread = ThreadNo::new(number as u8).unwrap();
        push_offsets(&mut text, thread, split.offsets(thread))?;
    }
    Ok(text)
}

/// The text of some draws: their line.
pub fn draws_text(alloc: Global, draws: &[u64]) -> Result<Vec<u8>, OutOfMemory>
    ensures { IfOk result (λ text. text.items ≡ draws_text draws.now) }
{
    let mut text = Vec::new(alloc);
    push_list_line(&mut text, b"draws", draws)?;
    Ok(text)
}

// Appends the line of the order.
#[tactic(auto, unfolding(surw_base::specs::Lines::list_line))]
fn push_order(text: &mut Vec<u8>, order: &[ThreadNo]) -> Result<(), OutOfMemory>
    ensures { OnOk result (text.new.items ≡ text.old.items ++ list_line (codes "order") order.now) }
{
    text.extend_from_slice(b"order")?;
    for thread in order {
        push_item(text, u64::from(thread.get()))?;
    }
    text.push(b'\n')?;
    Ok(())
}

// Appends the line of a thread's offsets.
#[tactic(auto, unfolding(surw_base::specs::Lines::list_line))]
fn push_offsets(text: &mut Vec<u8>, thread: ThreadNo, offsets: &[u32]) -> Result<(), OutOfMemory>
    ensures { OnOk result (text.new.items ≡ text.old.items ++ list_line (codes "offsets") (thread ∷ offsets.now)) }
{
    text.extend_from_slice(b"offsets")?;
    push_item(text, u64::from(thread.get()))?;
    for offset in offsets {
        push_item(text, u64::from(*offset))?;
    }
    text.push(b'\n')?;
    Ok(())
}
