ghost use Rattle.std.specs.Prelude.{◌≡◌, ◌⊎◌, IfErr};
ghost use Rattle.std.specs.IoError.{error_kind};
ghost use Rattle.surw_cli.specs.Jobs.{all_jobs};
ghost use Rattle.surw_cli.specs.CommandLine.{given_words};
ghost use Rattle.surw_cli.specs.Ending.{Call, Ends};

use crate::status::Status;
use crate::top::surw;
use gate_core::Stage;
use std::alloc::Global;
use std::io::{self, ErrorKind};
use std::sync::Wait;
use std::thread::Threads;
use surw_io::{Shelf, Sink};

/// Ends as `surw` does at the words that the process was given. Words that are no text are answered as
/// none at all, which ask for no job; where memory for them was refused, nothing is written and no file opened.
pub fn status_of_words<H: Threads + Wait + Sync, F: Shelf, O: Sink, G: Stage>(
    rt: &H,
    alloc: Global,
    words: io::Result<Vec<String>>,
    shelf: &mut F,
    out: &mut O,
    stage: &G,
) -> Status
    ensures ends { let call : Call = record {
      jobs = all_jobs;
      words = given_words words;
      files = record { first = F.coming shelf.old; second = F.coming_after shelf.old };
      before = record {
        in_faults = F.in_faults shelf.old;
        out_faults = F.out_faults shelf.old;
        made = F.made shelf.old;
        sink_faults = O.faults out.old;
        taken = O.taken out.old;
      };
      now = record {
        in_faults = F.in_faults shelf.new;
        out_faults = F.out_faults shelf.new;
        made = F.made shelf.new;
        sink_faults = O.faults out.new;
        taken = O.taken out.new;
      };
    } in Ends call result }
    ensures no_text { IfErr words (λ error. error_kind error ≡ ErrorKind.InvalidData → (result ≡ Status.Words) ⊎ (result ≡ Status.OutOfMemory)) }
    ensures no_memory { IfErr words (λ error. (error_kind error ≡ ErrorKind.InvalidData → ⊥) → result ≡ Status.OutOfMemory) }
    ensures unopened { IfErr words (λ _. F.opens shelf.new ≡ F.opens shelf.old) }
{
    match words {
        Ok(words) => surw(rt, alloc, words.as_slice(), shelf, out, stage),
        Err(error) if error.kind() == ErrorKind::InvalidData => {
            surw(rt, alloc, &[], shelf, out, stage)
        }
        Err(_) => Status::OutOfMemory,
    }
}
