ghost use Rattle.std.specs.Prelude.{◌≡◌, ℕ, ◌≤◌, IfSome, IsTrue, Some, length, slice_get, slice_index, slice_index_or, take, None};
ghost use Rattle.surw_base.specs.declared.limits.TheConstants.{THREADS, STEPS};
ghost use Rattle.gate_core.specs.Log.{AreOwn, EndsAt, LogState, made_by};

use crate::Log;
use pure_run::{Entry, Run};
use routine_kit::Routine;
use surw_base::{THREADS, ThreadNo};

// Whether each log is that of its thread in the run. The journal is gone over once.
pub(crate) fn all_own<R: Routine>(run: &Run, logs: &[Log<R>]) -> bool
    requires { length logs.now ≤ THREADS }
    ensures { IsTrue result → AreOwn R.Routine run.now.journal run.now.words logs.now }
{
    match items_made(run.journal(), logs) {
        Some(made) => all_end(run, logs, &made),
        None => false,
    }
}

// How many entries each thread has, where each is the next item of its thread's log. None where one isn't.
fn items_made<R: Routine>(journal: &[Entry], logs: &[Log<R>]) -> Option<[u32; THREADS]>
    requires { length journal.now ≤ STEPS }
    ensures { IfSome result (λ made. (thread : ℕ) (log : LogState _) → slice_get logs.now thread ≡ Some log
        → take (slice_index made thread) log.items ≡ made_by thread journal.now) }
{
    let mut made = [0; THREADS];
    for entry in journal {
        let thread = usize::from(entry.thread.get());
        let place = made[thread];
        if thread >= logs.len() || !logs[thread].has(place, entry) {
            return None;
        }
        made[thread] = place + 1;
    }
    Some(made)
}

// Whether each log has so many items, and announces the last word of its thread.
fn all_end<R: Routine>(run: &Run, logs: &[Log<R>], made: &[u32; THREADS]) -> bool
    requires { length logs.now ≤ THREADS }
    ensures { IsTrue result → (thread : ℕ) (log : LogState _) → slice_get logs.now thread ≡ Some log
        → EndsAt R.Routine log (slice_index made.now thread) (slice_index_or run.now.words thread None) }
{
    for (thread, log) in logs.iter().enumerate() {
        let word = run.next(ThreadNo::new(thread as u8).unwrap());
        if !log.ends_at(made[thread], word) {
            return false;
        }
    }
    true
}
