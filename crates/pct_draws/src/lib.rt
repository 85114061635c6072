//! What PCT draws before its first step: an order of the threads, and the steps at which it changes priorities.
#![tactic(auto)]

mod change_points;
mod thread_order;

pub use change_points::draw_changes;
pub use thread_order::draw_order;
