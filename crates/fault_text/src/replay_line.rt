ghost use Rattle.std.specs.Prelude.{◌≡◌, OnOk, OnErr};
ghost use Rattle.surw_io.specs.Cause.{HasCause};
ghost use Rattle.surw_io.specs.Content.{with_end, HoldsPrefix};
ghost use Rattle.fault_text.specs.FaultText.{replay_fault_text};

use crate::item::Item;
use crate::line::put_line;
use replay_text::ReplayFault;
use surw_io::{Failed, Sink};

// Writes the line of a saved run's fault. Want of memory is no fault of a file and has no line: nothing is written.
pub(crate) fn put_replay_line<O: Sink>(fault: &ReplayFault, out: &mut O) -> Result<(), Failed>
    ensures all { OnOk result (O.taken out.new ≡ with_end (O.taken out.old) (replay_fault_text fault.now)) }
    ensures prefix { OnErr result (HoldsPrefix (O.taken out.old) (replay_fault_text fault.now) (O.taken out.new)) }
    ensures cause { HasCause (O.faults out.old) (O.faults out.new) result ⊥ }
{
    match fault {
        ReplayFault::Header => put_line(out, b"fault replay header", &[]),
        ReplayFault::Line { number } => put_line(
            out,
            b"fault replay line",
            &[Item::Number(u64::from(*number))],
        ),
        ReplayFault::TooMany { number } => put_line(
            out,
            b"fault replay too_many",
            &[Item::Number(u64::from(*number))],
        ),
        ReplayFault::NoEnd => put_line(out, b"fault replay no_end", &[]),
        ReplayFault::OutOfMemory => Ok(()),
    }
}
