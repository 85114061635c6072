ghost use Rattle.std.specs.Prelude.{◌≡◌};
ghost use Rattle.pure_run.specs.Core.{last_word};
ghost use Rattle.pure_run.specs.View.{is_acquire};

use event_class::Event;

/// What a thread has said since its last step.
#[derive(Clone, Copy, Debug, Default, PartialEq, Eq)]
pub enum Word {
    /// Nothing yet.
    #[default]
    Due,
    /// The event that it announces, or that it has ended.
    Said(Option<Event>),
}

impl Word {
    // The event that it announces. None where it has ended or its word is due.
    pub(crate) fn last(&self) -> Option<Event>
        ensures { result ≡ last_word self.now }
    {
        match *self {
            Word::Due => None,
            Word::Said(event) => event,
        }
    }
    // Whether it is the acquire of a lock.
    pub(crate) fn acquires(&self, lock: u64) -> bool
        ensures { result ≡ is_acquire lock (last_word self.now) }
    {
        match *self {
            Word::Said(Some(Event::Acquire { l })) => l == lock,
            _ => false,
        }
    }
}
