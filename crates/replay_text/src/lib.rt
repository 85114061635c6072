//! The text of a saved run, printed and read: the name of its scenario, and the thread and event of each entry.
#![tactic(auto)]

mod end_line;
mod entry_line;
pub mod laws;
mod name_line;
mod next_line;
mod reading;
mod replay_fault;
mod saved;
mod summary;
mod writing;

pub use name_line::name_digits;
pub use reading::read_replay;
pub use replay_fault::ReplayFault;
pub use saved::Saved;
pub use summary::replay_summary;
pub use writing::write_replay;

#[cfg(test)]
mod tests;
