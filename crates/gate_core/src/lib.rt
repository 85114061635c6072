//! Runs on threads of their own: the gate that a core stands behind, the workers that wait at it, and the run that
//! they make.
#![tactic(auto)]

mod crew;
mod gate;
mod gated;
mod held;
mod lent;
mod log;
mod own_logs;
mod pass;
mod stage;
mod turnstile;
mod waited;
mod worker;

pub use gate::Gate;
pub use gated::run_gated;
// A crate can name a turnstile in a contract only if the types of its fields are exported.
pub use held::Held;
pub use lent::Lent;
pub use log::Log;
pub use pass::Pass;
pub use stage::{Bare, Stage};
pub use turnstile::Turnstile;
pub use waited::Waited;

#[cfg(test)]
mod tests;
