ghost use Rattle.std.specs.Prelude.{◌≡◌, IfOk, IfErr, Ok};
ghost use Rattle.toml.specs.View.{table_view};
ghost use Rattle.scenario_toml.specs.Faults.{IsFaultOf};
ghost use Rattle.scenario_toml.specs.Flusher.{flusher_in};

use crate::ScenarioFault;
use crate::keys::NumberKey;
use crate::read::values::{boolean_at, number_at, only};
use routine_kit::{AnyRoutine, Flusher};
use std::alloc::Global;
use toml::Table;

// A round has at most four events, so those of one thread are no more than a run has steps.
const ROUNDS: NumberKey = NumberKey {
    name: "rounds",
    least: 0,
    most: 16_384,
    default: None,
};

/// A routine that writes frames to the disk.
#[tactic(auto, unfolding(crate::specs::Flusher::flusher_in))]
pub(crate) fn read_flusher(
    alloc: Global,
    path: &[u8],
    table: &Table,
) -> Result<AnyRoutine, ScenarioFault>
    ensures ok { IfOk result (λ found. flusher_in path.now (table_view table.now) ≡ Ok found) }
    ensures fault { IfErr result (IsFaultOf (flusher_in path.now (table_view table.now))) }
{
    only(alloc, path, &["kind", "rounds", "mark_first"], table)?;
    let rounds = number_at(alloc, path, table, ROUNDS)?;
    let mark_first = boolean_at(alloc, path, table, "mark_first", true)?;
    Ok(AnyRoutine::Flusher(Flusher::new(rounds as u16, mark_first)))
}
