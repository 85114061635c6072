//! Where draws come from: sources that answer a bound with a number below it, or refuse.
#![tactic(auto)]

mod any_draws;
mod draw_fault;
mod draws;
mod loose_tape;
mod seeded;
mod share;
mod strict_tape;

pub use any_draws::AnyDraws;
pub use draw_fault::DrawFault;
pub use draws::Draws;
pub use loose_tape::LooseTape;
pub use seeded::Seeded;
pub use share::{word_join, word_split};
pub use strict_tape::StrictTape;
