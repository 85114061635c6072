ghost use Rattle.std.specs.Prelude.{◌≡◌, ◌<◌, ◌++◌, ◌∷◌, ℕ, List, IfSome, IsSomeAnd};
ghost use Rattle.std.specs.Fmt.{decimal};
ghost use Rattle.surw_base.specs.Lines.{line};
ghost use Rattle.replay_text.specs.EntryOf.{entry_of};
ghost use Rattle.replay_text.specs.SavedRun.{IsEntry};
ghost use Rattle.replay_text.specs.SavedText.{entry_text};
ghost use Rattle.surw_base.specs.declared.limits.TheConstants.{THREADS};

use event_class::{put_event, read_event};
use line_text::Line;
use surw_base::{THREADS, ThreadNo, read_number};
use walk_rules::Asked;

// Makes the line that of an entry.
pub(crate) fn make_entry_line(out: &mut Line, entry: &Asked)
    ensures text { out.new ≡ line (entry_text entry.now) }
    ensures fits { IsEntry entry.now }
{
    out.clear();
    out.put(b"\n");
    put_event(out, &entry.event);
    out.put(b" ");
    out.put_number(u64::from(entry.thread.get()));
}

// The entry that a line gives. None where it gives none.
pub(crate) fn read_entry(line: &[u8]) -> Option<Asked>
    ensures { result ≡ entry_of line.now }
{
    let (thread, text) = match read_thread(line) {
        Some(front) => front,
        None => return None,
    };
    match read_event(text) {
        Some((event, len)) => {
            if len < text.len() {
                return None;
            }
            Some(Asked { thread, event })
        }
        None => None,
    }
}

// The thread with which a line begins, and what is behind the space after it.
fn read_thread(line: &[u8]) -> Option<(ThreadNo, &[u8])>
    ensures found { IfSome result (λ front. line.now ≡ decimal front.0 ++ 32 ∷ front.1.now) }
    ensures below { IfSome result (λ front. front.0 < THREADS) }
    ensures only { (thread : ℕ) (rest : List ℕ) → thread < THREADS → line.now ≡ decimal thread ++ 32 ∷ rest
        → IsSomeAnd result (λ front. (front.0 ≡ thread) × (front.1.now ≡ rest)) }
{
    let (number, len) = match read_number(line) {
        Some(found) => found,
        None => return None,
    };
    if number >= THREADS as u64 {
        return None;
    }
    let (_, behind) = line.split_at(len);
    match behind.strip_prefix(b" ") {
        Some(text) => Some((ThreadNo::new(number as u8).unwrap(), text)),
        None => None,
    }
}
