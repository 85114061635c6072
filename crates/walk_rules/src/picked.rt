ghost use Rattle.std.specs.Prelude.{◌≡◌};

use seed_draws::DrawFault;
use surw_base::ThreadNo;

/// A step that was granted to a thread.
#[derive(Clone, Copy, Debug, PartialEq, Eq)]
pub struct Grant {
    /// The thread.
    pub thread: ThreadNo,
    /// Whether the step is forced.
    pub forced: bool,
}

/// What a strategy picks.
#[derive(Clone, Copy, Debug, PartialEq, Eq)]
pub enum Picked {
    /// The thread takes the next step.
    Grant {
        /// The thread, one that can go on.
        thread: ThreadNo,
        /// Whether the step is forced.
        forced: bool,
    },
    /// One of the two sources refused a draw in this call.
    Stop(DrawFault),
}
