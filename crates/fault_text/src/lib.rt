//! The line that a refused command line prints.
#![tactic(auto)]

mod fault;
mod item;
mod line;
mod replay_line;
mod scenario_line;

pub use fault::Fault;

#[cfg(test)]
mod tests;
