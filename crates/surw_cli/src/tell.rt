ghost use Rattle.std.specs.Prelude.{◌≡◌, ◌⊎◌, ℕ, List, Err, IfSome, IsSome, OnOk, OnErr, option_map};
ghost use Rattle.fault_text.specs.declared.fault.Fault.{Fault};
ghost use Rattle.surw_cli.specs.CommandAnswer.{Files, IsAnswer};
ghost use Rattle.surw_cli.specs.Ending.{Call, Ends, with_saved};
ghost use Rattle.surw_io.specs.Cause.{HasCause};
ghost use Rattle.surw_io.specs.Made.{HoldsFilePrefix};
ghost use Rattle.surw_cli.specs.Reached.{ComesTo, report_answer, to_create};
ghost use Rattle.surw_cli.specs.Status.{status_of};
ghost use Rattle.command_words.specs.declared.job.Job.{Job};
ghost use Rattle.surw_cli.specs.declared.stop.Stop.TheVariants.{OutOfMemory, Refused};

use crate::report::{Report, SavedFile};
use crate::status::Status;
use crate::stop::Stop;
use surw_io::{Failed, Shelf, Sink, put_all, put_file};

/// Writes the report that a call comes to, behind the file that it saves, or the line of its refusal, and ends with the
/// status.
pub(crate) fn tell<F: Shelf, O: Sink>(
    report: Result<Report, Stop>,
    shelf: &mut F,
    out: &mut O,
) -> Status
    ensures ends { (jobs : List Job) (words : List (List ℕ)) (files : Files) (before : ℕ)
        → ComesTo (IsAnswer jobs words files) before (F.in_faults shelf.old) report → let call : Call = record {
          jobs = jobs;
          words = words;
          files = files;
          before = record {
            in_faults = before;
            out_faults = F.out_faults shelf.old;
            made = F.made shelf.old;
            sink_faults = O.faults out.old;
            taken = O.taken out.old;
          };
          now = record {
            in_faults = F.in_faults shelf.new;
            out_faults = F.out_faults shelf.new;
            made = F.made shelf.new;
            sink_faults = O.faults out.new;
            taken = O.taken out.new;
          };
        } in Ends call result }
    ensures refused { (fault : Fault) → report ≡ Err (Refused fault) → result ≡ status_of fault }
    ensures no_memory { report ≡ Err OutOfMemory → result ≡ Status.OutOfMemory }
    ensures opens { F.opens shelf.new ≡ F.opens shelf.old }
{
    match report {
        Ok(report) => write_report(&report, shelf, out),
        Err(Stop::Refused(fault)) => {
            let _ = fault.put(out);
            Status::of(&fault)
        }
        Err(Stop::OutOfMemory) => Status::OutOfMemory,
    }
}

// Writes a report behind the file that it saves, and ends with its status, or where one of the two isn't written with
// that of a write fault.
fn write_report<F: Shelf, O: Sink>(report: &Report, shelf: &mut F, out: &mut O) -> Status
    ensures ends { (jobs : List Job) (words : List (List ℕ)) (files : Files) (before : ℕ)
        → IsAnswer jobs words files (report_answer report.now) → F.in_faults shelf.old ≡ before → let call : Call = record {
          jobs = jobs;
          words = words;
          files = files;
          before = record {
            in_faults = before;
            out_faults = F.out_faults shelf.old;
            made = F.made shelf.old;
            sink_faults = O.faults out.old;
            taken = O.taken out.old;
          };
          now = record {
            in_faults = F.in_faults shelf.new;
            out_faults = F.out_faults shelf.new;
            made = F.made shelf.new;
            sink_faults = O.faults out.new;
            taken = O.taken out.new;
          };
        } in Ends call result }
    ensures opens { F.opens shelf.new ≡ F.opens shelf.old }
{
    match save(&report.saved, shelf) {
        Ok(()) => {}
        Err(_) => return Status::WriteFault,
    }
    match put_all(out, report.text.as_slice()) {
        Ok(()) => report.status,
        Err(_) => Status::WriteFault,
    }
}

// Creates the file that is saved, if one is.
fn save<F: Shelf>(saved: &Option<SavedFile>, shelf: &mut F) -> Result<(), Failed>
    ensures whole { OnOk result (F.made shelf.new ≡ with_saved (F.made shelf.old) (option_map to_create saved.now)) }
    ensures prefix { OnErr result (IfSome (option_map to_create saved.now) (λ file.
        (F.made shelf.new ≡ F.made shelf.old) ⊎ HoldsFilePrefix (F.made shelf.old) file.name file.bytes (F.made shelf.new))) }
    ensures some { OnErr result (IsSome saved.now) }
    ensures in_faults { F.in_faults shelf.new ≡ F.in_faults shelf.old }
    ensures opens { F.opens shelf.new ≡ F.opens shelf.old }
    ensures cause { HasCause (F.out_faults shelf.old) (F.out_faults shelf.new) result ⊥ }
{
    match saved {
        Some(file) => put_file(shelf, file.name.as_str(), file.text.as_slice()),
        None => Ok(()),
    }
}
