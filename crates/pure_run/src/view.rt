ghost use Rattle.std.specs.Prelude.{◌≡◌, ℕ, ◌<◌, ◌≤◌, map, length, slice_index_or};
ghost use Rattle.surw_base.specs.declared.limits.TheConstants.{THREADS};
ghost use Rattle.walk_rules.specs.Seen.{seen_of};
ghost use Rattle.run_rules.specs.Position.{seen_word};
ghost use Rattle.pure_run.specs.declared.word.Word.TheVariants.{Due};
ghost use Rattle.pure_run.specs.Core.{last_word};
ghost use Rattle.pure_run.specs.View.{lock_of, seen_again, seen_now, FollowsEvent};

use crate::Word;
use event_class::{Event, Selection};
use surw_base::ThreadNo;
use test_world::World;
use walk_rules::{Announced, Seen};

// What a strategy sees of a thread that has said this.
#[inline(always)]
pub(crate) fn look_at(world: &World, selection: &Selection, word: &Option<Event>) -> Seen
    ensures { result ≡ seen_word world.now selection.now word.now }
{
    match word {
        None => Seen::Over,
        Some(event) => {
            let chosen = selection.has(event);
            if world.enabled(event) {
                Seen::Able { chosen }
            } else {
                Seen::Held { chosen }
            }
        }
    }
}

// Looks again at the threads that announce the acquire of the lock that an event was of. What is seen of the others
// stays.
#[inline(always)]
pub(crate) fn look_after(view: &mut Announced, world: &World, words: &[Word], event: &Event)
    requires each { length view.old ≡ length words.now }
    requires few { length words.now ≤ THREADS }
    ensures { FollowsEvent world.now event.now (map last_word words.now) view.old view.new }
{
    if let Some(lock) = lock_of(event) {
        let enabled = world.enabled(&Event::Acquire { l: lock });
        look_again(view, words, lock, enabled);
    }
}

// The lock of an event.
fn lock_of(event: &Event) -> Option<u64>
    ensures { result ≡ lock_of event.now }
{
    match *event {
        Event::Acquire { l } | Event::Release { l } => Some(l),
        _ => None,
    }
}

// Puts what is seen of the threads that announce the acquire of a lock, where that is enabled now, or isn't.
#[inline(never)]
fn look_again(view: &mut Announced, words: &[Word], lock: u64, enabled: bool)
    requires each { length view.old ≡ length words.now }
    requires few { length words.now ≤ THREADS }
    ensures each { length view.new ≡ length view.old }
    ensures seen { (thread : ℕ) → thread < length words.now
        → seen_of view.new thread ≡ seen_again lock enabled (last_word (slice_index_or words.now thread Due)) (seen_of view.old thread) }
{
    for (thread, word) in words.iter().enumerate() {
        if word.acquires(lock) {
            let thread = ThreadNo::new(thread as u8).unwrap();
            view.set(thread, seen_now(view.get(thread), enabled));
        }
    }
}

// What is seen of a thread whose event is enabled now, or isn't.
fn seen_now(seen: Seen, enabled: bool) -> Seen
    ensures { result ≡ seen_now enabled seen }
{
    match seen {
        Seen::Over => Seen::Over,
        Seen::Held { chosen } | Seen::Able { chosen } if enabled => Seen::Able { chosen },
        Seen::Held { chosen } | Seen::Able { chosen } => Seen::Held { chosen },
    }
}
