//! The words of the program's command line: a job, the names of its files and what is chosen, read into one typed value.
#![tactic(auto)]

mod ask;
mod command;
mod job;
pub mod laws;
mod number;
mod words;

pub use ask::Ask;
pub use job::Job;
pub use words::{WordFault, read_words};
