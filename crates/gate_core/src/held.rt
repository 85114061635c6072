ghost use Rattle.std.specs.Prelude.{◌≡◌, ◌+◌, IfOk, Some, length, slice_get};
ghost use Rattle.pure_run.specs.declared.word.Word.TheVariants.{Due};
ghost use Rattle.pure_run.specs.Core.{after_word, setup_by, IsStepTo};
ghost use Rattle.gate_core.specs.Held.{next_thread};

use event_class::Event;
use pure_run::Core;
use seed_draws::Draws;
use std::alloc::Global;
use std::boxed::Box;
use std::marker::Model;
use surw_base::{OutOfMemory, ThreadNo};
use turn_table::Rounded;

/// A core, as the state that threads have in turn: each step is a round. A contract sees the core.
#[derive(Drop)]
pub struct Held<S: Draws, O: Draws> {
    // Behind a pointer, since a turn is moved from hand to hand at each step.
    core: Box<Core<S, O>>,
}

impl<S: Draws, O: Draws> Model for Held<S, O> {
    ghost use Rattle.pure_run.specs.Core.{CoreState};

    ghost Value = { CoreState S O };

    ghost view = { λ h. h.core.value };
}

impl<S: Draws, O: Draws> Rounded for Held<S, O> {
    ghost round_of = { λ core. length core.journal };

    ghost granted_of = { next_thread S.Draws O.Draws };

    fn round(&self) -> u32 {
        self.core.len()
    }

    fn granted(&self) -> Option<ThreadNo> {
        self.core.granted()
    }
}

impl<S: Draws, O: Draws> Held<S, O> {
    // This core, as a state.
    pub(crate) fn new(alloc: Global, core: Core<S, O>) -> Result<Held<S, O>, OutOfMemory>
        ensures { IfOk result (λ held. held ≡ core) }
    {
        let core = Box::new(alloc, core)?;
        Ok(Held { core })
    }

    // The core.
    pub(crate) fn into_core(self) -> Core<S, O>
        ensures { result ≡ self }
    {
        Box::into_inner(self.core)
    }

    // Makes the step of the thread that is granted it, and answers the reply to its event.
    pub(crate) fn perform(&mut self, thread: ThreadNo) -> u64
        requires { next_thread S.Draws O.Draws self.old ≡ Some thread }
        ensures step { IsStepTo (setup_by S.Draws O.Draws self.old) self.old thread result self.new }
        ensures due { slice_get self.new.words thread ≡ Some Due }
        ensures longer { length self.new.journal ≡ length self.old.journal + 1 }
    {
        self.core.perform(thread)
    }

    // Says the word of a thread that is due.
    pub(crate) fn say(&mut self, thread: ThreadNo, event: Option<Event>)
        requires { slice_get self.old.words thread ≡ Some Due }
        ensures { self.new ≡ after_word self.old thread event }
    {
        self.core.say(thread, event);
    }
}
