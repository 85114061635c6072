ghost use Rattle.std.specs.Prelude.{◌≡◌, IfOk, IfErr, Ok};
ghost use Rattle.toml.specs.View.{table_view};
ghost use Rattle.scenario_toml.specs.Faults.{IsFaultOf};
ghost use Rattle.scenario_toml.specs.Adder.{adder_in};

use crate::ScenarioFault;
use crate::keys::NumberKey;
use crate::read::values::{number_at, only};
use routine_kit::{Adder, AnyRoutine};
use std::alloc::Global;
use toml::Table;

const CELL: NumberKey = NumberKey {
    name: "cell",
    least: 0,
    most: surw_base::CELLS as i64 - 1,
    default: None,
};

const TRIES: NumberKey = NumberKey {
    name: "tries",
    least: 1,
    most: surw_base::TIMES as i64,
    default: Some(1),
};

/// A routine that adds one to a cell.
#[tactic(auto, unfolding(crate::specs::Adder::adder_in))]
pub(crate) fn read_adder(
    alloc: Global,
    path: &[u8],
    table: &Table,
) -> Result<AnyRoutine, ScenarioFault>
    ensures ok { IfOk result (λ found. adder_in path.now (table_view table.now) ≡ Ok found) }
    ensures fault { IfErr result (IsFaultOf (adder_in path.now (table_view table.now))) }
{
    only(alloc, path, &["kind", "cell", "tries"], table)?;
    let cell = number_at(alloc, path, table, CELL)?;
    let tries = number_at(alloc, path, table, TRIES)?;
    Ok(AnyRoutine::Adder(Adder::new(cell, tries as u16)))
}
