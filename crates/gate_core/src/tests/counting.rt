//! Replies that are counted as they are taken.
ghost use Rattle.std.specs.Prelude.{◌≡◌, IfOk};

use crate::Stage;
use event_class::Event;
use routine_kit::Routine;
use std::alloc::Global;
use std::sync::atomic::{AtomicU64, Ordering};
use surw_base::{OutOfMemory, ThreadNo};

/// A routine that counts each reply that it is told, in a number that it shares with its copies.
#[derive(Drop)]
pub struct Counting<'a, R: Routine> {
    routine: R,
    taken: &'a AtomicU64,
}

impl<'a, R: Routine> Counting<'a, R> {
    /// The routine, with the number of replies so far.
    pub fn new(routine: R, taken: &'a AtomicU64) -> Counting<'a, R> {
        Counting { routine, taken }
    }
}

impl<'a, R: Routine> Routine for Counting<'a, R> {
    ghost announced = { λ counting. R.announced counting.routine };

    ghost after_reply = { λ counting reply. record counting { routine = R.after_reply counting.routine reply } };

    fn announce(&self) -> Option<Event> {
        self.routine.announce()
    }

    fn take(&mut self, reply: u64) {
        self.taken.fetch_add(1, Ordering::SeqCst);
        self.routine.take(reply);
    }

    fn copy(&self, alloc: Global) -> Result<Counting<'a, R>, OutOfMemory> {
        Ok(Counting {
            routine: self.routine.copy(alloc)?,
            taken: self.taken,
        })
    }
}

/// Looks at each turn whether as many replies were taken as steps were made.
#[derive(Drop)]
pub struct InTurn<'a> {
    taken: &'a AtomicU64,
    wrong: AtomicU64,
}

impl<'a> InTurn<'a> {
    /// With the number of replies so far.
    pub fn new(taken: &'a AtomicU64) -> InTurn<'a> {
        InTurn {
            taken,
            wrong: AtomicU64::new(0),
        }
    }

    /// At how many turns there were more or fewer.
    pub fn wrong(&self) -> u64 {
        self.wrong.load(Ordering::SeqCst)
    }
}

impl<'a> Stage for InTurn<'a> {
    fn born(&self, _thread: ThreadNo) {}

    fn at_turn(&self, _thread: ThreadNo, step: u32) {
        if self.taken.load(Ordering::SeqCst) != u64::from(step) {
            self.wrong.fetch_add(1, Ordering::SeqCst);
        }
    }

    fn handed(&self, _thread: ThreadNo, _step: u32) {}
}
