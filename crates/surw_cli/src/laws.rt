//! What follows from the contract of the top call, and what pins it.
ghost use Rattle.std.specs.Prelude.{◌≡◌, ◌≢◌, ◌⊎◌, map, string_bytes};
ghost use Rattle.surw_cli.specs.Jobs.{all_jobs, plain_jobs};
ghost use Rattle.surw_cli.specs.CommandAnswer.{OneAnswer, safe_files};
ghost use Rattle.surw_cli.specs.Ending.{IsAnswered};
ghost use Rattle.surw_cli.specs.Repeats.{SavedRunsRepeat};

use crate::status::Status;
use crate::top::{surw, surw_plain};
use gate_core::Stage;
use std::alloc::Global;
use std::sync::Wait;
use std::thread::Threads;
use surw_io::{SafeShelf, SafeSink};

/// The plain top call over devices that never fail, with a file under every name at the first open, and another at each
/// later one: a read fault or a write fault never comes, and the status is that of the answer unless memory was refused.
pub fn over_safe_devices(alloc: Global, words: &[String], first: &[u8], second: &[u8]) -> Status
    ensures no_read_fault { result ≢ Status.ReadFault }
    ensures no_write_fault { result ≢ Status.WriteFault }
    ensures answered { (result ≡ Status.OutOfMemory)
        ⊎ IsAnswered plain_jobs (map string_bytes words.now) (safe_files first.now second.now) result }
{
    let mut shelf = SafeShelf::new(first, second);
    let mut out = SafeSink::new();
    surw_plain(alloc, words, &mut shelf, &mut out)
}

/// The same of the top call, with every job. It may wait for the threads of a run.
pub fn on_threads_over_safe_devices<H: Threads + Wait + Sync, G: Stage>(
    rt: &H,
    alloc: Global,
    words: &[String],
    first: &[u8],
    second: &[u8],
    stage: &G,
) -> Status
    ensures no_read_fault { result ≢ Status.ReadFault }
    ensures no_write_fault { result ≢ Status.WriteFault }
    ensures answered { (result ≡ Status.OutOfMemory)
        ⊎ IsAnswered all_jobs (map string_bytes words.now) (safe_files first.now second.now) result }
{
    let mut shelf = SafeShelf::new(first, second);
    let mut out = SafeSink::new();
    surw(rt, alloc, words, &mut shelf, &mut out, stage)
}

/// No two answers hold of one command line, over a shelf that tells what it gives. So the status and the bytes
/// that a call leaves are those of the one answer, unless memory or a device failed.
pub fn one_answer()
    ensures { OneAnswer }
{}

/// What `plan` and `run` save of a run, where it can be read again, is repeated by `replay` over the same scenario: the
/// same threads, events and replies, the same world and last words; and where the run's verdict is that every thread has
/// ended, the step limit or a deadlock, the same verdict with the same monitors failed at the same places.
pub fn saved_runs_repeat()
    ensures { SavedRunsRepeat }
{}
