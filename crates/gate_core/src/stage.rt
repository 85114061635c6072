use surw_base::ThreadNo;

/// Calls that a worker makes beside its events. None of them has an answer, so none changes a run; they may take as
/// long as they like.
pub trait Stage: Sync {
    /// First of all, before the worker waits for its first step.
    fn born(&self, thread: ThreadNo);

    /// When the step of this number, from 0, was granted, before it is made. No other thread makes one meanwhile.
    fn at_turn(&self, thread: ThreadNo, step: u32);

    /// When that step was handed on, before the worker waits again.
    fn handed(&self, thread: ThreadNo, step: u32);
}

/// A stage that does nothing.
#[derive(Debug, Drop)]
pub struct Bare;

impl Stage for Bare {
    fn born(&self, _thread: ThreadNo) {}

    fn at_turn(&self, _thread: ThreadNo, _step: u32) {}

    fn handed(&self, _thread: ThreadNo, _step: u32) {}
}
