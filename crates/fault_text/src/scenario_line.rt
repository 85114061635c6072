ghost use Rattle.std.specs.Prelude.{◌≡◌, OnOk, OnErr};
ghost use Rattle.surw_io.specs.Cause.{HasCause};
ghost use Rattle.surw_io.specs.Content.{with_end, HoldsPrefix};
ghost use Rattle.fault_text.specs.FaultText.{scenario_fault_text};

use crate::item::Item;
use crate::line::put_line;
use scenario_toml::ScenarioFault;
use surw_io::{Failed, Sink};

// Writes the line of a scenario's fault. Want of memory is no fault of a file and has no line: nothing is
// written.
pub(crate) fn put_scenario_line<O: Sink>(fault: &ScenarioFault, out: &mut O) -> Result<(), Failed>
    ensures all { OnOk result (O.taken out.new ≡ with_end (O.taken out.old) (scenario_fault_text fault.now)) }
    ensures prefix { OnErr result (HoldsPrefix (O.taken out.old) (scenario_fault_text fault.now) (O.taken out.new)) }
    ensures cause { HasCause (O.faults out.old) (O.faults out.new) result ⊥ }
{
    match fault {
        ScenarioFault::NotToml => put_line(out, b"fault scenario not_toml", &[]),
        ScenarioFault::Missing { key } => put_line(
            out,
            b"fault scenario missing",
            &[Item::Text(key.as_bytes())],
        ),
        ScenarioFault::WrongKind { key } => put_line(
            out,
            b"fault scenario wrong_kind",
            &[Item::Text(key.as_bytes())],
        ),
        ScenarioFault::Unknown { key } => put_line(
            out,
            b"fault scenario unknown",
            &[Item::Text(key.as_bytes())],
        ),
        ScenarioFault::Range {
            key,
            kept,
            least,
            most,
        } => put_line(
            out,
            b"fault scenario range",
            &[
                Item::Text(key.as_bytes()),
                Item::Signed(*kept),
                Item::Signed(*least),
                Item::Signed(*most),
            ],
        ),
        ScenarioFault::Name { key, text } => put_line(
            out,
            b"fault scenario name",
            &[Item::Text(key.as_bytes()), Item::Text(text.as_bytes())],
        ),
        ScenarioFault::OutOfMemory => Ok(()),
    }
}
