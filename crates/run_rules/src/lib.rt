//! What a run is: plans, journals, positions, verdicts, and the one journal that is the run of a plan.
#![tactic(auto)]

mod entry;
pub mod laws;
mod plan;
mod verdict;

pub use entry::Entry;
pub use plan::Plan;
pub use verdict::Verdict;
