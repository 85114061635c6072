ghost use Rattle.std.specs.Prelude.{◌≡◌};
ghost use Rattle.routine_kit.specs.Flusher.{new_flusher, flusher_announced, flusher_after};

use crate::Routine;
use event_class::Event;
use std::alloc::Global;
use surw_base::OutOfMemory;

/// A routine that writes frames to the disk, in each round the one that is the oldest. Before that it may mark the
/// log as durable up to the frame's stamp.
#[derive(Clone, Copy, Debug, PartialEq, Eq)]
pub struct Flusher {
    // How many rounds are left, the one that has begun with them.
    rounds: u16,
    mark_first: bool,
    phase: Phase,
}

// The event that comes next in a round, with what it needs of the replies so far.
#[derive(Clone, Copy, Debug, PartialEq, Eq)]
enum Phase {
    Oldest,
    Stamp { frame: u64 },
    Mark { frame: u64, stamp: u64 },
    Flush { frame: u64 },
}

impl Flusher {
    /// A flusher of so many rounds, which may be none, with or without a mark before each flush.
    pub fn new(rounds: u16, mark_first: bool) -> Flusher
        ensures { result ≡ new_flusher rounds mark_first }
    {
        Flusher {
            rounds,
            mark_first,
            phase: Phase::Oldest,
        }
    }
}

impl Routine for Flusher {
    ghost announced = { flusher_announced };

    ghost after_reply = { flusher_after };

    fn announce(&self) -> Option<Event> {
        if self.rounds == 0 {
            return None;
        }
        Some(match self.phase {
            Phase::Oldest => Event::Oldest,
            Phase::Stamp { frame } => Event::Stamp { f: frame },
            Phase::Mark { stamp, .. } => Event::Mark { n: stamp },
            Phase::Flush { frame } => Event::Flush { f: frame },
        })
    }

    fn take(&mut self, reply: u64) {
        self.phase = match self.phase {
            Phase::Oldest => Phase::Stamp { frame: reply },
            Phase::Stamp { frame } if self.mark_first => Phase::Mark {
                frame,
                stamp: reply,
            },
            Phase::Stamp { frame } | Phase::Mark { frame, .. } => Phase::Flush { frame },
            Phase::Flush { .. } => {
                self.rounds -= 1;
                Phase::Oldest
            }
        };
    }

    fn copy(&self, _alloc: Global) -> Result<Flusher, OutOfMemory> {
        Ok(*self)
    }
}

#[cfg(test)]
mod tests;
