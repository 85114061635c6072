ghost use Rattle.std.specs.Prelude.{◌≡◌, ◌⊎◌, map, string_bytes};
ghost use Rattle.command_words.specs.Ask.{Ask, AsksFor, AsksForNothing};
ghost use Rattle.surw_cli.specs.Ending.{Call, Ends};
ghost use Rattle.surw_cli.specs.Jobs.{all_jobs, plain_jobs};
ghost use Rattle.surw_cli.specs.Reached.{OpensFor, WasUnread};

use crate::jobs::{report_of, report_on_threads};
use crate::status::Status;
use crate::stop::Stop;
use crate::tell::tell;
use command_words::{Job, read_words};
use gate_core::Stage;
use std::alloc::Global;
use std::sync::Wait;
use std::thread::Threads;
use surw_io::{Shelf, Sink};

/// Does the job that the words after the program's name ask for: `order`, `draws`, `plan`, `profile`, `check`, `make`,
/// `run` or `replay`. The report, or a refusal's line, goes to `out`, behind the file to which a run is saved. It waits for the
/// threads of a `run` and a `replay`, by which the stage is called; every other job is done as `surw_plain` does it.
///
/// The status, the file that is created and what was written are the answer to the words and the files, unless a device
/// failed: `ReadFault` comes only where the shelf's count of opens and reads that failed rose or there is no such file,
/// `WriteFault` only where its count of creates and writes rose, and then nothing was written, or the sink's count rose at
/// the report. On `OutOfMemory` nothing was written and no file created.
pub fn surw<H: Threads + Wait + Sync, F: Shelf, O: Sink, G: Stage>(
    rt: &H,
    alloc: Global,
    words: &[String],
    shelf: &mut F,
    out: &mut O,
    stage: &G,
) -> Status
    ensures ends { let call : Call = record {
      jobs = all_jobs;
      words = map string_bytes words.now;
      files = record { first = F.coming shelf.old; second = F.coming_after shelf.old };
      before = record {
        in_faults = F.in_faults shelf.old;
        out_faults = F.out_faults shelf.old;
        made = F.made shelf.old;
        sink_faults = O.faults out.old;
        taken = O.taken out.old;
      };
      now = record {
        in_faults = F.in_faults shelf.new;
        out_faults = F.out_faults shelf.new;
        made = F.made shelf.new;
        sink_faults = O.faults out.new;
        taken = O.taken out.new;
      };
    } in Ends call result }
    ensures unasked { AsksForNothing all_jobs (map string_bytes words.now) → (result ≡ Status.Words) ⊎ (result ≡ Status.OutOfMemory) }
    ensures opened { (ask : Ask) → AsksFor all_jobs (map string_bytes words.now) ask
        → OpensFor ask.job (F.opens shelf.old) (F.opens shelf.new) ⊎ WasUnread (F.opens shelf.old) (F.opens shelf.new) result }
    ensures unopened { AsksForNothing all_jobs (map string_bytes words.now) → F.opens shelf.new ≡ F.opens shelf.old }
{
    let jobs = [
        Job::Order,
        Job::Draws,
        Job::Plan,
        Job::Profile,
        Job::Check,
        Job::Make,
        Job::Run,
        Job::Replay,
    ];
    match read_words(alloc, &jobs, words) {
        Ok(ask) => {
            let report = report_on_threads(rt, alloc, &ask, shelf, stage);
            tell(report, shelf, out)
        }
        Err(fault) => tell(Err(Stop::from(fault)), shelf, out),
    }
}

/// Does the job that the words after the program's name ask for, one of `order`, `draws`, `plan`, `profile`, `check` and
/// `make`, and always returns. All else is as `surw` has it; `run` and `replay` are no jobs of it.
pub fn surw_plain<F: Shelf, O: Sink>(
    alloc: Global,
    words: &[String],
    shelf: &mut F,
    out: &mut O,
) -> Status
    ensures ends { let call : Call = record {
      jobs = plain_jobs;
      words = map string_bytes words.now;
      files = record { first = F.coming shelf.old; second = F.coming_after shelf.old };
      before = record {
        in_faults = F.in_faults shelf.old;
        out_faults = F.out_faults shelf.old;
        made = F.made shelf.old;
        sink_faults = O.faults out.old;
        taken = O.taken out.old;
      };
      now = record {
        in_faults = F.in_faults shelf.new;
        out_faults = F.out_faults shelf.new;
        made = F.made shelf.new;
        sink_faults = O.faults out.new;
        taken = O.taken out.new;
      };
    } in Ends call result }
    ensures unasked { AsksForNothing plain_jobs (map string_bytes words.now) → (result ≡ Status.Words) ⊎ (result ≡ Status.OutOfMemory) }
    ensures opened { (ask : Ask) → AsksFor plain_jobs (map string_bytes words.now) ask
        → OpensFor ask.job (F.opens shelf.old) (F.opens shelf.new) ⊎ WasUnread (F.opens shelf.old) (F.opens shelf.new) result }
    ensures unopened { AsksForNothing plain_jobs (map string_bytes words.now) → F.opens shelf.new ≡ F.opens shelf.old }
{
    let jobs = [
        Job::Order,
        Job::Draws,
        Job::Plan,
        Job::Profile,
        Job::Check,
        Job::Make,
    ];
    match read_words(alloc, &jobs, words) {
        Ok(ask) => {
            let report = report_of(alloc, &ask, shelf);
            tell(report, shelf, out)
        }
        Err(fault) => tell(Err(Stop::from(fault)), shelf, out),
    }
}
