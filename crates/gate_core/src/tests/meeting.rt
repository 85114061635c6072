//! Two threads that look for each other.
use crate::Stage;
use std::hint::spin_loop;
use std::sync::atomic::{AtomicU64, Ordering};
use surw_base::ThreadNo;

/// Threads 0 and 1 look for each other when they are born, and then once more: thread 0 when it has handed step 0 on,
/// and thread 1 before it makes step 1.
#[derive(Drop)]
pub struct Meeting {
    born: [AtomicU64; 2],
    between: [AtomicU64; 2],
    seen: AtomicU64,
}

impl Meeting {
    /// Nobody has come yet.
    pub fn new() -> Meeting {
        Meeting {
            born: [AtomicU64::new(0), AtomicU64::new(0)],
            between: [AtomicU64::new(0), AtomicU64::new(0)],
            seen: AtomicU64::new(0),
        }
    }

    /// How often one saw the other.
    pub fn seen(&self) -> u64 {
        self.seen.load(Ordering::SeqCst)
    }

    // Comes, and looks for the other for a while.
    fn meet(&self, mine: &AtomicU64, other: &AtomicU64) {
        mine.store(1, Ordering::SeqCst);
        for _ in 0..50_000_000u32 {
            if other.load(Ordering::SeqCst) == 1 {
                self.seen.fetch_add(1, Ordering::SeqCst);
                return;
            }
            spin_loop();
        }
    }
}

impl Stage for Meeting {
    fn born(&self, thread: ThreadNo) {
        if thread.get() == 0 {
            self.meet(&self.born[0], &self.born[1]);
        } else {
            self.meet(&self.born[1], &self.born[0]);
        }
    }

    fn at_turn(&self, thread: ThreadNo, step: u32) {
        if thread.get() == 1 && step == 1 {
            self.meet(&self.between[1], &self.between[0]);
        }
    }

    fn handed(&self, thread: ThreadNo, step: u32) {
        if thread.get() == 0 && step == 0 {
            self.meet(&self.between[0], &self.between[1]);
        }
    }
}
