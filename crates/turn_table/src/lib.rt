//! A state that threads have in turn: one word names whose turn it is, and only that thread's seat can take the state.
#![tactic(auto)]

mod close;
mod look;
mod pass;
mod rounded;
mod rule;
mod seat;
mod table;
mod turn;
mod view;
mod wait;

pub use close::Closed;
pub use look::Look;
pub use rounded::Rounded;
pub use seat::TurnSeat;
pub use table::TurnTable;
pub use turn::Turn;
// A crate can name a table in a contract only if the types of its fields are exported.
pub use rule::TurnRule;
pub use view::View;
pub use wait::TurnAnswer;

#[cfg(test)]
mod tests;
