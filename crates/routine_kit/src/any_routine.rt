ghost use Rattle.routine_kit.specs.AnyRoutine.{any_announced, any_after};

use crate::{Adder, CacheUser, Flusher, LogWriter, Routine, Steps};
use event_class::Event;
use std::alloc::Global;
use surw_base::OutOfMemory;

/// A routine of any kind of this crate.
#[derive(Debug, Drop)]
pub enum AnyRoutine {
    /// One that runs lines.
    Steps(Steps),
    /// One that adds one to a cell.
    Adder(Adder),
    /// One that reads a page through the cache.
    CacheUser(CacheUser),
    /// One that writes frames to the disk.
    Flusher(Flusher),
    /// One that logs a value and writes it into a frame.
    LogWriter(LogWriter),
}

impl Routine for AnyRoutine {
    ghost announced = { any_announced };

    ghost after_reply = { any_after };

    #[inline(always)]
    fn announce(&self) -> Option<Event> {
        match self {
            AnyRoutine::Steps(steps) => steps.announce(),
            AnyRoutine::Adder(adder) => adder.announce(),
            AnyRoutine::CacheUser(user) => user.announce(),
            AnyRoutine::Flusher(flusher) => flusher.announce(),
            AnyRoutine::LogWriter(writer) => writer.announce(),
        }
    }

    #[inline(always)]
    fn take(&mut self, reply: u64) {
        match self {
            AnyRoutine::Steps(steps) => steps.take(reply),
            AnyRoutine::Adder(adder) => adder.take(reply),
            AnyRoutine::CacheUser(user) => user.take(reply),
            AnyRoutine::Flusher(flusher) => flusher.take(reply),
            AnyRoutine::LogWriter(writer) => writer.take(reply),
        }
    }

    fn copy(&self, alloc: Global) -> Result<AnyRoutine, OutOfMemory> {
        Ok(match self {
            AnyRoutine::Steps(steps) => AnyRoutine::Steps(steps.copy(alloc)?),
            AnyRoutine::Adder(adder) => AnyRoutine::Adder(adder.copy(alloc)?),
            AnyRoutine::CacheUser(user) => AnyRoutine::CacheUser(user.copy(alloc)?),
            AnyRoutine::Flusher(flusher) => AnyRoutine::Flusher(flusher.copy(alloc)?),
            AnyRoutine::LogWriter(writer) => AnyRoutine::LogWriter(writer.copy(alloc)?),
        })
    }
}
