ghost use Rattle.std.specs.Prelude.{◌≡◌, ◌<◌, ◌≤◌, None, map, length, slice_index_or};
ghost use Rattle.surw_base.specs.declared.limits.TheConstants.{THREADS};
ghost use Rattle.walk_rules.specs.Seen.{is_able, seen_of};
ghost use Rattle.walk_rules.specs.Strategies.{asked_list};
ghost use Rattle.run_rules.specs.Verdict.{first_with_word, is_word, left_over, other_than_asked};
ghost use Rattle.pure_run.specs.Core.{last_word};

use crate::Word;
use event_class::Event;
use run_rules::Verdict;
use surw_base::{THREADS, ThreadNo};
use walk_rules::{Announced, Asked, Seen, Walk};

// The verdict where the thread of an entry that is asked for doesn't announce its event, or can't go on.
pub(crate) fn other_than_asked(
    step: u32,
    words: &[Word],
    view: &Announced,
    asked: Option<Asked>,
) -> Option<Verdict>
    requires { length words.now ≡ length view.now }
    ensures { result ≡ other_than_asked step (map last_word words.now) view.now asked }
{
    let Some(Asked { thread, event }) = asked else {
        return None;
    };
    let announced = word_of(words, thread);
    if is_word(&announced, &event) && is_able(view, thread) {
        return None;
    }
    Some(Verdict::Asked {
        step,
        thread,
        event,
        announced,
    })
}

// The last word of a thread. None also where there is no such thread.
fn word_of(words: &[Word], thread: ThreadNo) -> Option<Event>
    ensures { result ≡ slice_index_or (map last_word words.now) thread None }
{
    match words.get(usize::from(thread.get())) {
        Some(word) => word.last(),
        None => None,
    }
}

// Whether a word is an event.
fn is_word(word: &Option<Event>, event: &Event) -> bool
    ensures { result ≡ is_word word.now event.now }
{
    match word {
        Some(word) => word == event,
        None => false,
    }
}

// Whether a thread can go on.
fn is_able(view: &Announced, thread: ThreadNo) -> bool
    requires { thread < length view.now }
    ensures { result ≡ is_able (seen_of view.now thread) }
{
    matches!(view.get(thread), Seen::Able { .. })
}

// The verdict where a walk follows a list that is at its end.
pub(crate) fn left_over(step: u32, words: &[Word], walk: &Walk) -> Option<Verdict>
    requires { length words.now ≤ THREADS }
    ensures { result ≡ left_over step (map last_word words.now) (asked_list walk.now.rule) }
{
    if !walk.follows() || walk.asked(step).is_some() {
        return None;
    }
    match first_with_word(words) {
        Some(thread) => Some(Verdict::Left { step, thread }),
        None => None,
    }
}

// The least thread with a word.
#[tactic(auto, using(crate::proofs::FirstWords::first_words))]
fn first_with_word(words: &[Word]) -> Option<ThreadNo>
    requires { length words.now ≤ THREADS }
    ensures { result ≡ first_with_word (map last_word words.now) }
{
    for (thread, word) in words.iter().enumerate() {
        if word.last().is_some() {
            return Some(ThreadNo::new(thread as u8).unwrap());
        }
    }
    None
}
