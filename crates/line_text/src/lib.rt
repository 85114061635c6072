//! A line of text in a fixed room, which is written from its end to its front.
#![tactic(auto)]

mod line;

pub use line::{DIGITS, LINE_ROOM, Line};
