ghost use Rattle.std.specs.Prelude.{◌≡◌, ◌<◌, ◌≤◌, IfOk, IfSome, None, Some, length, slice_get};
ghost use Rattle.run_rules.specs.declared.verdict.Verdict.{Verdict};
ghost use Rattle.run_rules.specs.Setup.{IsValid};
ghost use Rattle.seed_draws.specs.Answers.{Source, after_bounds};
ghost use Rattle.walk_rules.specs.State.{new_walk};
ghost use Rattle.walk_rules.specs.Walk.{wrong_of};
ghost use Rattle.pure_run.specs.declared.next.Next.TheVariants.{Due, Stopped};
ghost use Rattle.pure_run.specs.declared.word.Word.TheVariants.{Said};
ghost use Rattle.pure_run.specs.Core.{new_core, before_word, after_entry, position, setup_by, granted_of, IsGrantedStep, IsStep};
ghost use Rattle.pure_run.specs.Decision.{bounds_by, decision, is_drawn_at, pick_by, stop_at, walk_then, IsDecidable};
ghost use Rattle.pure_run.specs.Finish.{outcome_at};
ghost use Rattle.pure_run.specs.Invariant.{IsAbleNext, IsCore};
ghost use Rattle.pure_run.specs.Opening.{setup_in};

use crate::monitors::{places_at_start, watch};
use crate::replaying::{left_over, other_than_asked};
use crate::view::{look_after, look_at};
use crate::{History, Next, Run, Upcoming};
use event_class::Event;
use run_rules::{Entry, Verdict};
use seed_draws::Draws;
use std::alloc::Global;
use surw_base::{OutOfMemory, ThreadNo};
use test_world::World;
use walk_rules::{Announced, Grant, Picked, Seen, Walk};

/// What a core has at hand beside its history, which says all of it: so no call goes over the journal again.
#[derive(Drop)]
pub struct Running<S: Draws, O: Draws> {
    world: World,
    // How many words are due.
    due: usize,
    view: Announced,
    walk: Walk,
    selected: S,
    other: O,
    // Where each monitor failed so far.
    failed: Vec<Option<u32>>,
    next: Upcoming,
}

impl<S: Draws, O: Draws> Running<S, O> {
    // The running parts of a run before its first word. Without threads the verdict is there.
    pub(crate) fn open(alloc: Global, history: &History<S, O>) -> Result<Running<S, O>, OutOfMemory>
        requires valid { (selected others : Source) → IsValid (setup_in selected others history.now.opening) }
        requires fresh { history.now.opening.walk ≡ new_walk history.now.opening.walk.rule history.now.opening.walk.counts }
        requires new { history.now ≡ new_core history.now.opening }
        ensures { IfOk result (IsCore S.Draws O.Draws history.now) }
    {
        let opening = history.opening();
        let world = World::new(alloc, opening.size())?;
        let failed = places_at_start(alloc, &world, opening.monitors())?;
        let walk = opening.walk().copy(alloc)?;
        let selected = opening.selected().copy(alloc)?;
        let other = opening.other().copy(alloc)?;
        let threads = opening.threads();
        let view = Announced::new(threads);
        let mut running = Running {
            world,
            due: threads,
            view,
            walk,
            selected,
            other,
            failed,
            next: Upcoming::due(),
        };
        running.decide(history);
        Ok(running)
    }

    // Decides what comes next: a word while some are due, else a verdict or the pick of the strategy.
    #[tactic(auto, unfolding(seed_draws::specs::Answers::after_bounds))]
    #[inline(always)]
    fn decide(&mut self, history: &History<S, O>)
        requires made { IsDecidable history.now self.old }
        requires due { self.old.next ≡ Due }
        ensures next { self.new.next ≡ decision S.Draws O.Draws history.now self.old }
        ensures walk { self.new.walk ≡ walk_then (is_drawn_at self.new.next) (pick_by S.Draws O.Draws self.old) self.old.walk }
        ensures selected { self.new.selected ≡ after_bounds S.Draws self.old.selected
            (bounds_by (is_drawn_at self.new.next) (pick_by S.Draws O.Draws self.old).selected_bounds) }
        ensures other { self.new.other ≡ after_bounds O.Draws self.old.other
            (bounds_by (is_drawn_at self.new.next) (pick_by S.Draws O.Draws self.old).other_bounds) }
        ensures rest { self.new
            ≡ record self.old { walk = self.new.walk; selected = self.new.selected; other = self.new.other; next = self.new.next } }
        ensures able { IsAbleNext self.old.view self.new.next }
    {
        if self.due > 0 {
            return;
        }
        if let Some(verdict) = self.stop(history) {
            self.next.stop(verdict);
            return;
        }
        let step = history.len();
        match self
            .walk
            .pick(step, &self.view, &mut self.selected, &mut self.other)
        {
            Picked::Grant { thread, forced } => {
                self.next.grant(Grant { thread, forced });
            }
            Picked::Stop(fault) => {
                self.next.stop(Verdict::Draw { step, fault });
            }
        }
    }

    // Why the run stops before a draw is asked for, by the causes in their order.
    #[inline(always)]
    fn stop(&self, history: &History<S, O>) -> Option<Verdict>
        requires { IsDecidable history.now self.now }
        ensures { result ≡ stop_at history.now self.now }
    {
        let step = history.len();
        let words = history.words();
        let asked = self.walk.asked(step);
        if let Some(verdict) = other_than_asked(step, words, &self.view, asked) {
            return Some(verdict);
        }
        if let Some((thread, counted, seen)) = self.wrong(history) {
            return Some(Verdict::WrongCount {
                step,
                thread,
                counted,
                seen,
            });
        }
        if self.view.announcing() == 0 {
            return Some(Verdict::Ended);
        }
        if step == history.opening().max_steps() {
            return Some(Verdict::StepLimit { step });
        }
        if self.view.able() == 0 {
            return Some(Verdict::Deadlock { step });
        }
        left_over(step, words, &self.walk)
    }

    // The wrong count that is found first. After a step only its thread can have one.
    #[inline(always)]
    fn wrong(&self, history: &History<S, O>) -> Option<(ThreadNo, u32, u32)>
        requires { IsDecidable history.now self.now }
        ensures { result ≡ wrong_of self.now.walk self.now.view }
    {
        match history.last_thread() {
            None => self.walk.wrong(&self.view),
            Some(thread) => self.walk.wrong_at(&self.view, thread),
        }
    }

    // The parts after a thread has said its word, which was due. With the last word that is due it is decided what comes
    // next.
    #[inline(always)]
    pub(crate) fn say(&mut self, history: &History<S, O>, thread: ThreadNo, event: &Option<Event>)
        requires core { IsCore S.Draws O.Draws (before_word history.now thread) self.old }
        requires said { slice_get history.now.words thread ≡ Some (Said event.now) }
        ensures { IsCore S.Draws O.Draws history.now self.new }
    {
        let opening = history.opening();
        let seen = look_at(&self.world, opening.selection(), event);
        self.view.set(thread, seen);
        self.due -= 1;
        self.decide(history);
    }

    // The event of the thread that is granted its step, and whether the step is forced.
    fn grant(&self, history: &History<S, O>, thread: ThreadNo) -> (Event, bool)
        requires core { IsCore S.Draws O.Draws history.now self.now }
        requires granted { granted_of (setup_by S.Draws O.Draws history.now) history.now ≡ Some thread }
        ensures { IsGrantedStep (setup_by S.Draws O.Draws history.now) history.now thread result.0 result.1 }
    {
        let Next::Granted(grant) = self.next.to_next() else {
            unreachable!()
        };
        let Some(event) = history.words()[usize::from(thread.get())].last() else {
            unreachable!()
        };
        (event, grant.forced)
    }

    // The entry of the step that is granted, and the parts after it: the next word of its thread is due.
    #[inline(always)]
    pub(crate) fn perform(&mut self, history: &History<S, O>, thread: ThreadNo) -> Entry
        requires core { IsCore S.Draws O.Draws history.now self.old }
        requires granted { granted_of (setup_by S.Draws O.Draws history.now) history.now ≡ Some thread }
        ensures thread { result.thread ≡ thread }
        ensures step { IsStep (setup_by S.Draws O.Draws history.now) history.now result }
        ensures core { IsCore S.Draws O.Draws (after_entry history.now result) self.new }
    {
        let (event, forced) = self.grant(history, thread);
        let chosen = self.view.get(thread).is_selected();
        let reply = self.world.apply(thread, &event);
        self.walk.done(thread, chosen, forced);
        watch(
            &mut self.failed,
            &self.world,
            history.len() + 1,
            history.opening().monitors(),
        );
        look_after(&mut self.view, &self.world, history.words(), &event);
        self.view.set(thread, Seen::Over);
        self.due = 1;
        self.next.wait();
        Entry {
            thread,
            event,
            reply,
            forced,
        }
    }

    // What comes next.
    pub(crate) fn next(&self) -> Next
        ensures { result ≡ self.now.next }
    {
        self.next.to_next()
    }

    // The run of a history whose verdict this is.
    pub(crate) fn finish(self, history: History<S, O>, verdict: Verdict) -> Run
        requires core { IsCore S.Draws O.Draws history self }
        requires stopped { self.next ≡ Stopped verdict }
        ensures { result ≡ outcome_at (setup_by S.Draws O.Draws history) (position history) verdict }
    {
        let Running {
            world,
            selected,
            other,
            failed,
            ..
        } = self;
        let bent = selected.bent().saturating_add(other.bent());
        let (journal, words, selection, monitors) = history.into_parts();
        Run::new(
            journal, world, verdict, words, bent, selection, monitors, failed,
        )
    }
}
