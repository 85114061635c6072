ghost use Rattle.std.specs.Prelude.{◌≡◌, ◌⊎◌, IfOk, IfErr, Ok, Err, Some, None};
ghost use Rattle.toml.specs.View.{table_view};
ghost use Rattle.scenario_toml.specs.declared.fault.ScenarioFault.TheVariants.{NotToml, OutOfMemory};
ghost use Rattle.scenario_toml.specs.Faults.{IsFaultOf};
ghost use Rattle.scenario_toml.specs.Scenario.{tree_of, scenario_in, scenario_of};

mod counts;
mod items;
mod monitors;
mod tapes;
mod threads;
mod top;
mod values;
mod world;

use crate::read::counts::rule_of_counts;
use crate::read::monitors::monitors_of;
use crate::read::tapes::read_tapes;
use crate::read::threads::read_threads;
use crate::read::top::{TOP_NAMES, read_lists, read_parts, read_settings};
use crate::read::values::only;
use crate::read::world::read_world;
use crate::{Scenario, ScenarioFault};
use event_class::Selection;
use std::alloc::Global;
use toml::Table;

/// The scenario of a file, or its first fault. `NotToml` comes exactly where the bytes aren't TOML. Then come, in
/// this order: a key of the top table that isn't known, and each key that is; the tables `world` and `tapes` in
/// the same way; each thread by its kind, a key that isn't known, and each key that is; the number and the sum of
/// the counts; and the cells that the monitors watch. Each fault but `OutOfMemory` comes exactly where it is the
/// first. `OutOfMemory` comes only where memory is refused.
#[tactic(auto, unfolding(crate::specs::Scenario::scenario_of))]
pub fn read_scenario(alloc: Global, text: &[u8]) -> Result<Scenario, ScenarioFault>
    ensures ok { IfOk result (λ scenario. scenario_of text.now ≡ Ok scenario) }
    ensures fault { IfErr result (IsFaultOf (scenario_of text.now)) }
{
    let table = read_tree(alloc, text)?;
    read_table(alloc, &table)
}

// The tree of a file.
fn read_tree(alloc: Global, text: &[u8]) -> Result<Table, ScenarioFault>
    ensures ok { IfOk result (λ table. tree_of text.now ≡ Some (table_view table)) }
    ensures fault { IfErr result (λ fault. (fault ≡ OutOfMemory) ⊎ ((fault ≡ NotToml) × (tree_of text.now ≡ None))) }
{
    match toml::table_from_slice(alloc, text) {
        Ok(table) => Ok(table),
        Err(error) => {
            if error.is_memory() {
                return Err(ScenarioFault::OutOfMemory);
            }
            Err(ScenarioFault::NotToml)
        }
    }
}

// The scenario of a top table.
#[tactic(auto, unfolding(crate::specs::Scenario::scenario_in))]
fn read_table(alloc: Global, table: &Table) -> Result<Scenario, ScenarioFault>
    ensures ok { IfOk result (λ scenario. scenario_in (table_view table.now) ≡ Ok scenario) }
    ensures fault { IfErr result (IsFaultOf (scenario_in (table_view table.now))) }
{
    only(alloc, b"", &TOP_NAMES, table)?;
    let settings = read_settings(alloc, table)?;
    let lists = read_lists(alloc, table)?;
    let parts = read_parts(alloc, table)?;
    let size = read_world(alloc, parts.world)?;
    let tapes = read_tapes(alloc, parts.tapes)?;
    let routines = read_threads(alloc, parts.threads)?;
    let counts = rule_of_counts(alloc, lists.counts, routines.len())?;
    let monitors = monitors_of(alloc, lists.watches.as_slice(), size.cells)?;
    Ok(Scenario {
        strategy: settings.strategy,
        seed: settings.seed,
        depth: settings.depth,
        max_steps: settings.max_steps,
        select: Selection::new(lists.select),
        counts,
        monitors,
        size,
        tapes,
        routines,
    })
}

#[cfg(test)]
mod tests;
