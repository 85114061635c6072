ghost use Rattle.std.specs.Prelude.{◌≡◌, ◌≤◌, All, IfOk, IfErr, Ok, length};
ghost use Rattle.test_world.specs.Monitor.{CanWatch};
ghost use Rattle.test_world.specs.declared.size.WorldSize.{WorldSize};
ghost use Rattle.scenario_toml.specs.Faults.{IsFaultOf};
ghost use Rattle.scenario_toml.specs.Monitors.{monitor_of, monitors_from};

use crate::read::items::Item;
use crate::read::values::not_named;
use crate::watch::Watch;
use crate::{KeyName, ScenarioFault};
use std::alloc::Global;
use test_world::Monitor;
use toml::Value;

/// The monitors of what is watched for, in a world of so many cells.
pub(crate) fn monitors_of(
    alloc: Global,
    watches: &[Watch],
    cells: u16,
) -> Result<Vec<Monitor>, ScenarioFault>
    ensures ok { IfOk result (λ found. monitors_from cells 0 watches.now ≡ Ok found.items) }
    ensures fault { IfErr result (IsFaultOf (monitors_from cells 0 watches.now)) }
    ensures many { IfOk result (λ found. length found.items ≡ length watches.now) }
    ensures watched { IfOk result (λ found. (size : WorldSize) → size.cells ≡ cells → All (CanWatch size) found.items) }
{
    let mut monitors = Vec::with_capacity(alloc, watches.len())?;
    for (place, watch) in watches.iter().enumerate() {
        monitors.push(monitor_of(alloc, place, watch, cells)?)?;
    }
    Ok(monitors)
}

// The monitor of what is watched for at this place of the list.
fn monitor_of(
    alloc: Global,
    place: usize,
    watch: &Watch,
    cells: u16,
) -> Result<Monitor, ScenarioFault>
    ensures ok { IfOk result (λ found. monitor_of cells place watch.now ≡ Ok found) }
    ensures fault { IfErr result (IsFaultOf (monitor_of cells place watch.now)) }
    ensures watched { IfOk result (λ found. (size : WorldSize) → size.cells ≡ cells → CanWatch size found) }
{
    match *watch {
        Watch::WriteAhead => Ok(Monitor::WriteAhead),
        Watch::LogWhole => Ok(Monitor::LogWhole),
        Watch::Expect => Ok(Monitor::Expect),
        Watch::CellEnd { cell, value } => {
            if cell >= u64::from(cells) {
                let key = KeyName::new(alloc, b"", "monitors")?.at(alloc, place)?;
                let text = watch.text(alloc)?;
                return Err(not_named(alloc, key, text.as_slice()));
            }
            Ok(Monitor::CellEnd {
                cell: cell as u16,
                value,
            })
        }
    }
}

impl Item for Watch {
    ghost use Rattle.scenario_toml.specs.Monitors.{watch_item};

    ghost item = { watch_item };

    ghost IsKept = { λ _. Unit {0} };

    fn read(
        alloc: Global,
        key: &KeyName,
        place: usize,
        value: &Value,
    ) -> Result<Watch, ScenarioFault> {
        let key = key.at(alloc, place)?;
        match value.as_str() {
            None => Err(ScenarioFault::WrongKind { key }),
            Some(text) => match Watch::of(text.as_bytes()) {
                Some(watch) => Ok(watch),
                None => Err(not_named(alloc, key, text.as_bytes())),
            },
        }
    }
}
