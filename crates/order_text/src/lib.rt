//! Order files and files of draws: their texts read and printed.
#![tactic(auto)]

mod counts;
mod draws_file;
mod file_fault;
mod first_line;
mod order_file;
mod printing;

pub use draws_file::{DrawsFile, read_draws_file};
pub use file_fault::FileFault;
pub use order_file::{OrderFile, read_order_file};
pub use printing::{draws_text, order_text};

#[cfg(test)]
mod tests;
