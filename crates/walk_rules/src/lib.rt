//! The strategies: which thread takes the next step, by the draws and by what each thread announces.
#![tactic(auto)]

mod announced;
mod asked;
mod follow;
mod pct;
mod picked;
mod plain;
mod ranks;
mod rule;
mod seen;
mod surw;
mod thread_set;
mod urw;
mod walk;

pub use announced::Announced;
pub use asked::{Asked, AskedList};
pub use picked::{Grant, Picked};
pub use rule::Rule;
pub use seen::Seen;
pub use walk::Walk;
