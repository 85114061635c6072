use crate::{Lent, Pass};
use seed_draws::Draws;

/// How a wait at a gate ends.
pub enum Waited<'g, S: Draws, O: Draws, C> {
    /// The thread is granted the next step, and has the core.
    Mine(Lent<'g, S, O>),
    /// The core has a verdict: no step follows.
    Over(Pass<S, O>),
    /// The gate was closed with this note.
    Closed(Pass<S, O>, &'g C),
}
