//! The threads of a test: routines that announce an event, are told its reply, and announce the next.
#![tactic(auto)]

mod adder;
mod any_routine;
mod cache_user;
mod flusher;
mod line;
mod line_reading;
mod lines;
mod log_writer;
mod operand;
mod routine;
mod shape;
mod steps;
mod token;

pub use adder::Adder;
pub use any_routine::AnyRoutine;
pub use cache_user::CacheUser;
pub use flusher::Flusher;
pub use line::Line;
pub use line_reading::read_line;
pub use lines::Lines;
pub use log_writer::LogWriter;
pub use operand::Operand;
pub use routine::{Routine, copies};
pub use shape::Shape;
pub use steps::Steps;
