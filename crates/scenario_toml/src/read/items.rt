ghost use Rattle.std.specs.Prelude.{ℕ, ◌≡◌, ◌≤◌, List, All, Result, IfOk, IfErr, Ok, length};
ghost use Rattle.toml.specs.Data.{Data};
ghost use Rattle.toml.specs.View.{view, items_view};
ghost use Rattle.scenario_toml.specs.declared.fault.ScenarioFault.{ScenarioFault};
ghost use Rattle.scenario_toml.specs.Faults.{IsFaultOf};
ghost use Rattle.scenario_toml.specs.Values.{each};

use crate::{KeyName, ScenarioFault};
use std::alloc::Global;
use toml::Value;

/// What an item of an array is read as.
pub(crate) trait Item: Drop {
    /// What it is, by the array's key, its place and its value.
    ghost item: { List ℕ → ℕ → Data → Result Self ScenarioFault };

    /// What holds of every one.
    ghost IsKept: { Self → Type 0 };

    /// Reads an item of the array with this key.
    fn read(
        alloc: Global,
        key: &KeyName,
        place: usize,
        value: &Value,
    ) -> Result<Self, ScenarioFault>
        ensures ok { IfOk result (λ found. item key.now place (view value.now) ≡ Ok found) }
        ensures fault { IfErr result (IsFaultOf (item key.now place (view value.now))) }
        ensures kept { IfOk result IsKept };
}

/// Reads the items of an array with this key, in order.
pub(crate) fn read_items<T: Item>(
    alloc: Global,
    key: &KeyName,
    array: &[Value],
) -> Result<Vec<T>, ScenarioFault>
    ensures ok { IfOk result (λ found. each (T.item key.now) 0 (items_view array.now) ≡ Ok found.items) }
    ensures fault { IfErr result (IsFaultOf (each (T.item key.now) 0 (items_view array.now))) }
    ensures kept { IfOk result (λ found. All T.IsKept found.items) }
    ensures length { IfOk result (λ found. length found.items ≡ length array.now) }
{
    let mut items = Vec::with_capacity(alloc, array.len())?;
    for (place, value) in array.iter().enumerate() {
        items.push(T::read(alloc, key, place, value)?)?;
    }
    Ok(items)
}
