ghost use Rattle.std.specs.Prelude.{◌≡◌, ◌<◌, ◌≤◌, ◌↔◌, IsNone, IfSome};

use crate::THREADS;
use std::marker::Model;

/// The number of a thread, below `THREADS`.
#[derive(Clone, Copy, Debug, PartialEq, Eq, PartialOrd, Ord)]
pub struct ThreadNo {
    number: u8,
}

impl Model for ThreadNo {
    ghost use Rattle.std.specs.Prelude.{ℕ, ◌<◌};
    ghost use Rattle.surw_base.specs.declared.limits.TheConstants.{THREADS};

    ghost Value = { ℕ };

    ghost view = { λ thread. thread.number };

    ghost inverse = { λ n. record { number = n } };

    ghost invariant = { λ thread. thread.number < THREADS };
}

impl ThreadNo {
    /// The thread of this number. None exactly where the number isn't below `THREADS`.
    pub fn new(n: u8) -> Option<ThreadNo>
        ensures some { IfSome result (λ thread. thread ≡ n) }
        ensures none { IsNone result ↔ (THREADS ≤ n) }
    {
        if usize::from(n) < THREADS {
            Some(ThreadNo { number: n })
        } else {
            None
        }
    }

    /// Its number, below `THREADS`.
    pub fn get(&self) -> u8
        ensures same { result ≡ self.now }
        ensures below { result < THREADS }
    {
        self.number
    }
}
