ghost use Rattle.std.specs.Prelude.{◌≡◌, ◌<◌, ◌≤◌, IfOk, length, map, replicate, slice_get, slice_set, Some};
ghost use Rattle.surw_base.specs.declared.limits.TheConstants.{THREADS, STEPS};
ghost use Rattle.run_rules.specs.Plan.{IsValidPlan};
ghost use Rattle.pure_run.specs.declared.word.Word.TheVariants.{Due};
ghost use Rattle.pure_run.specs.Core.{new_core, after_word, after_entry, last_thread, last_word};
ghost use Rattle.pure_run.specs.Opening.{opening_of};

use crate::{Opening, Word};
use arrayvec::ArrayVec;
use event_class::{Event, Selection};
use routine_kit::Routine;
use run_rules::{Entry, Plan};
use seed_draws::Draws;
use std::alloc::Global;
use std::marker::Model;
use surw_base::{OutOfMemory, THREADS, ThreadNo};
use test_world::Monitor;

/// What a core was opened with, its journal, and what each thread has said since its last step. A contract sees
/// these three.
#[derive(Drop)]
pub struct History<S: Draws, O: Draws> {
    opening: Opening<S, O>,
    journal: Vec<Entry>,
    words: ArrayVec<Word, THREADS>,
}

impl<S: Draws, O: Draws> Model for History<S, O> {
    ghost use Rattle.std.specs.Prelude.{◌≤◌, vec_capacity};
    ghost use Rattle.pure_run.specs.Core.{CoreState};

    ghost Value = { CoreState S O };

    ghost view = { λ h. record { opening = h.opening; journal = h.journal.items; words = h.words.items } };

    ghost invariant = { λ h. h.opening.max_steps ≤ vec_capacity h.journal };
}

impl<S: Draws, O: Draws> History<S, O> {
    // The history of a run of a plan before its first word, with room for all its entries.
    pub(crate) fn open<R: Routine>(
        alloc: Global,
        plan: &Plan<R, S, O>,
    ) -> Result<History<S, O>, OutOfMemory>
        requires { length plan.now.routines.items ≤ THREADS }
        ensures { IfOk result (λ history. history ≡ new_core (opening_of plan.now)) }
    {
        let opening = Opening::of(alloc, plan)?;
        let mut journal = Vec::new(alloc);
        journal.reserve(plan.max_steps as usize)?;
        let words = due_words(plan.routines.len());
        Ok(History {
            opening,
            journal,
            words,
        })
    }

    pub(crate) fn opening(&self) -> &Opening<S, O>
        ensures { result.now ≡ self.now.opening }
    {
        &self.opening
    }

    // How many entries it has.
    pub(crate) fn len(&self) -> u32
        requires { length self.now.journal ≤ STEPS }
        ensures { result ≡ length self.now.journal }
    {
        self.journal.len() as u32
    }

    // The entry at a place.
    pub(crate) fn entry(&self, k: u32) -> Entry
        requires { k < length self.now.journal }
        ensures { slice_get self.now.journal k ≡ Some result }
    {
        self.journal[k as usize]
    }

    // The thread that made the last step.
    pub(crate) fn last_thread(&self) -> Option<ThreadNo>
        ensures { result ≡ last_thread self.now.journal }
    {
        self.journal.last().map(|entry| entry.thread)
    }

    pub(crate) fn words(&self) -> &[Word]
        ensures { result.now ≡ self.now.words }
    {
        self.words.as_slice()
    }

    // Puts what a thread has said.
    pub(crate) fn say(&mut self, thread: ThreadNo, event: Option<Event>)
        requires { thread < length self.old.words }
        ensures { self.new ≡ after_word self.old thread event }
    {
        self.words[usize::from(thread.get())] = Word::Said(event);
    }

    // Puts an entry. The word of its thread is due then.
    pub(crate) fn push(&mut self, entry: Entry)
        requires room { length self.old.journal < self.old.opening.max_steps }
        requires thread { entry.thread < length self.old.words }
        ensures { self.new ≡ after_entry self.old entry }
    {
        self.journal.push_reserved(entry);
        self.words[usize::from(entry.thread.get())] = Word::Due;
    }

    // The journal, the last words of the threads, the selection and the monitors.
    pub(crate) fn into_parts(
        self,
    ) -> (
        Vec<Entry>,
        ArrayVec<Option<Event>, THREADS>,
        Selection,
        Vec<Monitor>,
    )
        requires { length self.words ≤ THREADS }
        ensures journal { result.0.items ≡ self.journal }
        ensures words { result.1.items ≡ map last_word self.words }
        ensures selection { result.2 ≡ self.opening.selection }
        ensures monitors { result.3.items ≡ self.opening.monitors }
    {
        let History {
            opening,
            journal,
            words,
        } = self;
        let last = last_words(words.as_slice());
        let (selection, monitors) = opening.into_parts();
        (journal, last, selection, monitors)
    }
}

// So many words that are due.
fn due_words(threads: usize) -> ArrayVec<Word, THREADS>
    requires { threads ≤ THREADS }
    ensures { result.items ≡ replicate threads Due }
{
    let mut words = ArrayVec::new();
    for _thread in 0..threads {
        words.push(Word::Due);
    }
    words
}

// The last words of the threads.
fn last_words(words: &[Word]) -> ArrayVec<Option<Event>, THREADS>
    requires { length words.now ≤ THREADS }
    ensures { result.items ≡ map last_word words.now }
{
    let mut last = ArrayVec::new();
    for word in words {
        last.push(word.last());
    }
    last
}
