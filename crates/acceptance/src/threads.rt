use crate::command::{shelf_of, words_of};
use crate::lost_update::{LOST_REPORT, LOST_UPDATE};
use gate_core::{Bare, Stage};
use std::hint::spin_loop;
use std::sync::atomic::{AtomicU64, Ordering};
use std::test::Fail;
use surw_base::ThreadNo;
use surw_cli::{Status, surw};
use surw_io::MemSink;

/// Threads 0 and 1 look for each other when they are born, and then once more: thread 0 when it has handed step 0 on,
/// and thread 1 before it makes step 1.
#[derive(Drop)]
struct Meeting {
    born: [AtomicU64; 2],
    between: [AtomicU64; 2],
    seen: AtomicU64,
}

impl Meeting {
    fn new() -> Meeting {
        Meeting {
            born: [AtomicU64::new(0), AtomicU64::new(0)],
            between: [AtomicU64::new(0), AtomicU64::new(0)],
            seen: AtomicU64::new(0),
        }
    }

    // Comes, and looks for the other for a while.
    fn meet(&self, mine: &AtomicU64, other: &AtomicU64) {
        mine.store(1, Ordering::SeqCst);
        for _ in 0..50_000_000u32 {
            if other.load(Ordering::SeqCst) == 1 {
                self.seen.fetch_add(1, Ordering::SeqCst);
                return;
            }
            spin_loop();
        }
    }
}

impl Stage for Meeting {
    fn born(&self, thread: ThreadNo) {
        if thread.get() == 0 {
            self.meet(&self.born[0], &self.born[1]);
        } else {
            self.meet(&self.born[1], &self.born[0]);
        }
    }

    fn at_turn(&self, thread: ThreadNo, step: u32) {
        if thread.get() == 1 && step == 1 {
            self.meet(&self.between[1], &self.between[0]);
        }
    }

    fn handed(&self, thread: ThreadNo, step: u32) {
        if thread.get() == 0 && step == 0 {
            self.meet(&self.between[0], &self.between[1]);
        }
    }
}

#[test]
fn the_threads_of_a_run_see_each_other(rt: HostRuntime) -> Result<(), Fail> {
    let alloc = rt.alloc();
    let stage = Meeting::new();
    let words = words_of(alloc, "run", "f")?;
    let mut shelf = shelf_of(alloc, "f", LOST_UPDATE.as_bytes(), &[])?;
    let mut out = MemSink::new(alloc, 1000, 1000, Vec::new(alloc))?;
    let status = surw(&rt, alloc, words.as_slice(), &mut shelf, &mut out, &stage);
    assert_eq!(rt; status, Status::Failing);
    assert_eq!(rt; out.taken(), LOST_REPORT.as_bytes());
    assert_eq!(rt; stage.seen.load(Ordering::SeqCst), 4);
    Ok(())
}

#[test]
fn a_run_of_a_file_that_is_not_there(rt: HostRuntime) -> Result<(), Fail> {
    let alloc = rt.alloc();
    let words = words_of(alloc, "run", "g")?;
    let mut shelf = shelf_of(alloc, "f", LOST_UPDATE.as_bytes(), &[])?;
    let mut out = MemSink::new(alloc, 1000, 1000, Vec::new(alloc))?;
    let status = surw(&rt, alloc, words.as_slice(), &mut shelf, &mut out, &Bare);
    assert_eq!(rt; status, Status::ReadFault);
    assert_eq!(rt; out.taken(), b"fault read\n".as_slice());
    Ok(())
}
