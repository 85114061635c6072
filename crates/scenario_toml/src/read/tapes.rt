ghost use Rattle.std.specs.Prelude.{◌≡◌, ◌≤◌, IfOk, IfErr, Ok, length, option_map};
ghost use Rattle.surw_base.specs.declared.limits.TheConstants.{STEPS};
ghost use Rattle.toml.specs.View.{table_view};
ghost use Rattle.scenario_toml.specs.Faults.{IsFaultOf};
ghost use Rattle.scenario_toml.specs.Tapes.{entries_in, tapes, tapes_in};

use crate::entries::Entries;
use crate::read::items::Item;
use crate::read::values::{list_of, number_item, only, value_at};
use crate::{KeyName, ScenarioFault};
use std::alloc::Global;
use surw_base::STEPS;
use toml::{Table, Value};

/// The entries that the table `tapes` lists, and no tapes where there is no table.
pub(crate) fn read_tapes(
    alloc: Global,
    table: Option<&Table>,
) -> Result<Option<Entries>, ScenarioFault>
    ensures ok { IfOk result (λ found. tapes (option_map (λ t. table_view t.now) table.entry) ≡ Ok found) }
    ensures fault { IfErr result (IsFaultOf (tapes (option_map (λ t. table_view t.now) table.entry))) }
{
    match table {
        None => Ok(None),
        Some(table) => Ok(Some(read_entries(alloc, table)?)),
    }
}

// The entries that the table `tapes` lists.
#[tactic(auto, unfolding(crate::specs::Tapes::tapes_in))]
fn read_entries(alloc: Global, table: &Table) -> Result<Entries, ScenarioFault>
    ensures ok { IfOk result (λ found. tapes_in (table_view table.now) ≡ Ok found) }
    ensures fault { IfErr result (IsFaultOf (tapes_in (table_view table.now))) }
{
    only(alloc, b"tapes.", &["selected", "other"], table)?;
    let selected = entries_at(alloc, table, "selected")?;
    let other = entries_at(alloc, table, "other")?;
    Ok(Entries { selected, other })
}

// The entries of a tape, and none where it is absent.
fn entries_at(alloc: Global, table: &Table, name: &str) -> Result<Vec<u64>, ScenarioFault>
    ensures ok { IfOk result (λ found. entries_in name.now (table_view table.now) ≡ Ok found.items) }
    ensures fault { IfErr result (IsFaultOf (entries_in name.now (table_view table.now))) }
    ensures few { IfOk result (λ found. length found.items ≤ STEPS) }
{
    match value_at(table, name) {
        None => Ok(Vec::new(alloc)),
        Some(value) => list_of(alloc, b"tapes.", name, value, STEPS),
    }
}

impl Item for u64 {
    ghost use Rattle.scenario_toml.specs.Tapes.{entry_item};

    ghost item = { entry_item };

    ghost IsKept = { λ _. Unit {0} };

    fn read(
        alloc: Global,
        key: &KeyName,
        place: usize,
        value: &Value,
    ) -> Result<u64, ScenarioFault> {
        number_item(alloc, key, place, value, i64::MAX)
    }
}
