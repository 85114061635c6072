ghost use Rattle.std.specs.Prelude.{◌≡◌, ◌+◌, ◌↔◌, ◌<◌, ◌≤◌, IsTrue, IfOk, IfSome, IsSome, Some, length, slice_get};
ghost use Rattle.surw_base.specs.declared.limits.TheConstants.{THREADS, STEPS};
ghost use Rattle.run_rules.specs.declared.verdict.Verdict.{Verdict};
ghost use Rattle.run_rules.specs.Plan.{IsValidPlan};
ghost use Rattle.pure_run.specs.declared.word.Word.TheVariants.{Due};
ghost use Rattle.pure_run.specs.Core.{new_core, after_word, position, setup_by, verdict_of, granted_of, IsAble, IsStepTo};
ghost use Rattle.pure_run.specs.Finish.{outcome_at};
ghost use Rattle.pure_run.specs.Invariant.{IsKept};
ghost use Rattle.pure_run.specs.Opening.{opening_of, IsOpeningOf};

use crate::{History, Next, Run, Running};
use event_class::Event;
use routine_kit::Routine;
use run_rules::{Entry, Plan, Verdict};
use seed_draws::Draws;
use std::alloc::Global;
use std::marker::Model;
use surw_base::{OutOfMemory, ThreadNo};

/// The state of a run. It decides every step, and makes it when it is told to. A contract sees what it was opened
/// with, its journal, and what each thread has said since its last step; all else follows from these.
#[derive(Drop)]
pub struct Core<S: Draws, O: Draws> {
    history: History<S, O>,
    running: Running<S, O>,
}

impl<S: Draws, O: Draws> Model for Core<S, O> {
    ghost use Rattle.pure_run.specs.Core.{CoreState};
    ghost use Rattle.pure_run.specs.Invariant.{IsCore};

    ghost Value = { CoreState S O };

    ghost view = { λ c. c.history };

    ghost invariant = { λ c. IsCore S.Draws O.Draws c.history c.running };
}

impl<S: Draws, O: Draws> Core<S, O> {
    /// The core of a valid plan, with all the memory that its run needs: no later call takes any. No thread has
    /// said anything, so each word is due; without threads the verdict is there. An error comes only where memory
    /// is refused.
    pub fn open<R: Routine>(alloc: Global, plan: &Plan<R, S, O>) -> Result<Core<S, O>, OutOfMemory>
        requires { IsValidPlan plan.now }
        ensures { IfOk result (λ core. core ≡ new_core (opening_of plan.now)) }
    {
        let history = History::open(alloc, plan)?;
        let running = Running::open(alloc, &history)?;
        Ok(Core { history, running })
    }

    /// Says the word of a thread that is due: the event that it announces, or that it has ended. With the last
    /// word that is due the next step or the verdict is decided.
    #[inline(always)]
    pub fn say(&mut self, thread: ThreadNo, event: Option<Event>)
        requires { slice_get self.old.words thread ≡ Some Due }
        ensures { self.new ≡ after_word self.old thread event }
    {
        self.history.say(thread, event);
        self.running.say(&self.history, thread, &event);
    }

    /// The thread that takes the next step. None exactly while a word is due and where there is a verdict.
    pub fn granted(&self) -> Option<ThreadNo>
        ensures granted { result ≡ granted_of (setup_by S.Draws O.Draws self.now) self.now }
        ensures able { IfSome result (IsAble (setup_by S.Draws O.Draws self.now) self.now) }
    {
        match self.running.next() {
            Next::Granted(grant) => Some(grant.thread),
            _ => None,
        }
    }

    /// Makes the step of the thread that is granted it, and answers the reply to its event. Its next word is due
    /// then.
    #[inline(always)]
    pub fn perform(&mut self, thread: ThreadNo) -> u64
        requires { granted_of (setup_by S.Draws O.Draws self.old) self.old ≡ Some thread }
        ensures step { IsStepTo (setup_by S.Draws O.Draws self.old) self.old thread result self.new }
        ensures due { slice_get self.new.words thread ≡ Some Due }
        ensures longer { length self.new.journal ≡ length self.old.journal + 1 }
    {
        let entry = self.running.perform(&self.history, thread);
        let reply = entry.reply;
        self.history.push(entry);
        reply
    }

    /// Why the run stops. None exactly while a word is due and where the run goes on.
    pub fn verdict(&self) -> Option<Verdict>
        ensures { result ≡ verdict_of (setup_by S.Draws O.Draws self.now) self.now }
    {
        match self.running.next() {
            Next::Stopped(verdict) => Some(verdict),
            _ => None,
        }
    }

    /// How many entries the journal has, at most `STEPS`.
    pub fn len(&self) -> u32
        ensures number { result ≡ length self.now.journal }
        ensures most { result ≤ STEPS }
    {
        self.history.len()
    }

    /// The entry at a place of the journal.
    pub fn entry(&self, k: u32) -> Entry
        requires { k < length self.now.journal }
        ensures { slice_get self.now.journal k ≡ Some result }
    {
        self.history.entry(k)
    }

    /// How many threads the plan has that it was opened with, at most `THREADS`. What is true of every core is told
    /// here: it keeps its invariant.
    pub fn threads(&self) -> usize
        ensures number { result ≡ self.now.opening.threads }
        ensures words { result ≡ length self.now.words }
        ensures most { result ≤ THREADS }
        ensures kept { IsKept (setup_by S.Draws O.Draws self.now) self.now }
    {
        self.history.opening().threads()
    }

    /// Whether it was opened with what the plan has: the size of the world, the number of routines, the selection,
    /// the walk, two sources that count as one with the plan's, the step limit and the monitors.
    pub fn opened_as<R: Routine>(&self, plan: &Plan<R, S, O>) -> bool
        ensures { IsTrue result ↔ IsOpeningOf S.Draws O.Draws self.now.opening plan.now }
    {
        self.history.opening().is_of(plan)
    }

    /// The run, where there is a verdict.
    pub fn finish(self) -> Run
        requires { IsSome (verdict_of (setup_by S.Draws O.Draws self) self) }
        ensures run { (verdict : Verdict) → verdict_of (setup_by S.Draws O.Draws self) self ≡ Some verdict
            → result ≡ outcome_at (setup_by S.Draws O.Draws self) (position self) verdict }
        ensures kept { IsKept (setup_by S.Draws O.Draws self) self }
    {
        let Core { history, running } = self;
        let Next::Stopped(verdict) = running.next() else {
            unreachable!()
        };
        running.finish(history, verdict)
    }
}
