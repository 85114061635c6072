ghost use Rattle.std.specs.Prelude.{◌≡◌};
ghost use Rattle.routine_kit.specs.LogWriter.{new_log_writer, log_writer_announced, log_writer_after};

use crate::Routine;
use event_class::Event;
use std::alloc::Global;
use surw_base::OutOfMemory;

/// A routine that logs a value and writes it into a frame of its page, stamped with the slot of the log.
#[derive(Clone, Copy, Debug, PartialEq, Eq)]
pub struct LogWriter {
    page: u64,
    value: u64,
    phase: Phase,
}

// The event that comes next, with what it needs of the replies so far.
#[derive(Clone, Copy, Debug, PartialEq, Eq)]
enum Phase {
    Reserve,
    Put { slot: u64 },
    Claim { slot: u64 },
    Write { slot: u64, frame: u64 },
    Ended,
}

impl LogWriter {
    /// A writer of a value to a page. Each number may be any.
    pub fn new(page: u64, value: u64) -> LogWriter
        ensures { result ≡ new_log_writer page value }
    {
        LogWriter {
            page,
            value,
            phase: Phase::Reserve,
        }
    }
}

impl Routine for LogWriter {
    ghost announced = { log_writer_announced };

    ghost after_reply = { log_writer_after };

    fn announce(&self) -> Option<Event> {
        let v = self.value;
        Some(match self.phase {
            Phase::Reserve => Event::Reserve,
            Phase::Put { slot } => Event::Put { s: slot, v },
            Phase::Claim { .. } => Event::Claim { p: self.page },
            Phase::Write { slot, frame } => Event::Write {
                f: frame,
                v,
                n: slot,
            },
            Phase::Ended => return None,
        })
    }

    fn take(&mut self, reply: u64) {
        self.phase = match self.phase {
            Phase::Reserve => Phase::Put { slot: reply },
            Phase::Put { slot } => Phase::Claim { slot },
            Phase::Claim { slot } => Phase::Write { slot, frame: reply },
            Phase::Write { .. } | Phase::Ended => Phase::Ended,
        };
    }

    fn copy(&self, _alloc: Global) -> Result<LogWriter, OutOfMemory> {
        Ok(*self)
    }
}

#[cfg(test)]
mod tests;
