//! One run of a plan: the core, which decides every step, and a run on the caller's own thread.
#![tactic(auto)]

mod core_state;
mod history;
mod inline;
pub mod laws;
mod monitors;
mod next;
mod opening;
mod profiling;
mod replaying;
mod run;
mod running;
mod upcoming;
mod view;
mod word;

pub use core_state::Core;
pub use history::History;
pub use inline::{run_inline, say_first_words};
pub use next::Next;
pub use opening::Opening;
pub use profiling::{PROFILE_STREAM, ProfileCounts, ProfileFault, profile};
pub use run::Run;
pub use run_rules::{Entry, Plan, Verdict};
pub use running::Running;
pub use upcoming::Upcoming;
pub use word::Word;
