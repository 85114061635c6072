use event_class::Event;
use surw_base::ThreadNo;

/// One step of a run: an event that a thread made, and the reply.
#[derive(Clone, Copy, Debug, PartialEq, Eq)]
pub struct Entry {
    /// The thread.
    pub thread: ThreadNo,
    /// The event.
    pub event: Event,
    /// The reply of the world.
    pub reply: u64,
    /// Whether the strategy had to let it pass.
    pub forced: bool,
}
