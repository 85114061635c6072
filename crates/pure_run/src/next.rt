use run_rules::Verdict;
use walk_rules::Grant;

/// What comes next in a run.
#[derive(Clone, Copy, Debug, PartialEq, Eq)]
pub enum Next {
    /// A thread has to say its word.
    Due,
    /// A thread takes a step.
    Granted(Grant),
    /// The run stops.
    Stopped(Verdict),
}
