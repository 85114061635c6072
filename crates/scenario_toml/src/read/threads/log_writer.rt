ghost use Rattle.std.specs.Prelude.{◌≡◌, IfOk, IfErr, Ok};
ghost use Rattle.toml.specs.View.{table_view};
ghost use Rattle.scenario_toml.specs.Faults.{IsFaultOf};
ghost use Rattle.scenario_toml.specs.LogWriter.{log_writer_in};

use crate::ScenarioFault;
use crate::keys::{self, NumberKey};
use crate::read::values::{number_at, only};
use routine_kit::{AnyRoutine, LogWriter};
use std::alloc::Global;
use toml::Table;

const VALUE: NumberKey = NumberKey {
    name: "value",
    least: 0,
    most: i64::MAX,
    default: None,
};

/// A routine that logs a value and writes it to a page.
#[tactic(auto, unfolding(crate::specs::LogWriter::log_writer_in))]
pub(crate) fn read_log_writer(
    alloc: Global,
    path: &[u8],
    table: &Table,
) -> Result<AnyRoutine, ScenarioFault>
    ensures ok { IfOk result (λ found. log_writer_in path.now (table_view table.now) ≡ Ok found) }
    ensures fault { IfErr result (IsFaultOf (log_writer_in path.now (table_view table.now))) }
{
    only(alloc, path, &["kind", "page", "value"], table)?;
    let page = number_at(alloc, path, table, keys::PAGE)?;
    let value = number_at(alloc, path, table, VALUE)?;
    Ok(AnyRoutine::LogWriter(LogWriter::new(page, value)))
}
