//! The top call of SURW: words and a shelf of files in, a status and a report out.
#![tactic(auto)]

mod command_line;
mod fetched;
mod files;
mod jobs;
pub mod laws;
mod report;
mod status;
mod stop;
mod tell;
mod top;

pub use command_line::status_of_words;
pub use status::Status;
pub use top::{surw, surw_plain};
