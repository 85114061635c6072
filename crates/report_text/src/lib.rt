//! The text of a run: its verdict, what is counted in it, the world at the end, the monitors and each step. And the
//! text of a profile.
#![tactic(auto)]

mod cache_lines;
mod counts;
mod log_lines;
mod monitor_lines;
mod next_lines;
mod profile_lines;
mod steps;
mod texts;
mod verdict_line;
mod world_lines;

pub use profile_lines::profile_text;
pub use texts::{report, step_lines, summary};
