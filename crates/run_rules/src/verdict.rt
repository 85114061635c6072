use event_class::Event;
use seed_draws::DrawFault;
use surw_base::ThreadNo;

/// Why a run stops. `step` is the number of entries of its journal.
#[derive(Clone, Copy, Debug, PartialEq, Eq)]
pub enum Verdict {
    /// Every thread has ended.
    Ended,
    /// No announced event is enabled.
    Deadlock {
        /// The step.
        step: u32,
    },
    /// A thread has ended with selected events left, or announces one when it made all that were counted.
    WrongCount {
        /// The step.
        step: u32,
        /// The least such thread.
        thread: ThreadNo,
        /// Its count.
        counted: u32,
        /// How many selected events it made.
        seen: u32,
    },
    /// A source of draws refuses.
    Draw {
        /// The step.
        step: u32,
        /// Why it refuses.
        fault: DrawFault,
    },
    /// The entry that a replay asks for can't be made.
    Asked {
        /// The step.
        step: u32,
        /// The thread that is asked.
        thread: ThreadNo,
        /// The event that is asked.
        event: Event,
        /// What that thread announces in its place.
        announced: Option<Event>,
    },
    /// A replay is at its end, and a thread goes on.
    Left {
        /// The step.
        step: u32,
        /// The least thread that announces an event.
        thread: ThreadNo,
    },
    /// The journal has as many entries as the plan allows.
    StepLimit {
        /// The step.
        step: u32,
    },
}
