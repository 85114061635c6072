ghost use Rattle.std.specs.Prelude.{IfOk, IfErr, Ok, ◌≡◌, option_map};
ghost use Rattle.toml.specs.View.{table_view};
ghost use Rattle.test_world.specs.Size.{IsWithinLimits};
ghost use Rattle.scenario_toml.specs.Faults.{IsFaultOf};
ghost use Rattle.scenario_toml.specs.World.{world, world_in};

use crate::read::values::{number_at, only};
use crate::{ScenarioFault, keys};
use std::alloc::Global;
use test_world::WorldSize;
use toml::Table;

// The keys of the table `world`.
const WORLD_NAMES: [&str; 5] = ["cells", "locks", "frames", "pages", "slots"];

/// The size that the table `world` says, and a world of nothing where there is no table.
pub(crate) fn read_world(alloc: Global, table: Option<&Table>) -> Result<WorldSize, ScenarioFault>
    ensures ok { IfOk result (λ size. world (option_map (λ t. table_view t.now) table.entry) ≡ Ok size) }
    ensures fault { IfErr result (IsFaultOf (world (option_map (λ t. table_view t.now) table.entry))) }
    ensures limits { IfOk result IsWithinLimits }
{
    match table {
        None => Ok(WorldSize {
            cells: 0,
            locks: 0,
            frames: 0,
            pages: 0,
            slots: 0,
        }),
        Some(table) => read_sizes(alloc, table),
    }
}

// The size that the table `world` says.
#[tactic(auto, unfolding(crate::specs::World::world_in))]
fn read_sizes(alloc: Global, table: &Table) -> Result<WorldSize, ScenarioFault>
    ensures ok { IfOk result (λ size. world_in (table_view table.now) ≡ Ok size) }
    ensures fault { IfErr result (IsFaultOf (world_in (table_view table.now))) }
    ensures limits { IfOk result IsWithinLimits }
{
    only(alloc, b"world.", &WORLD_NAMES, table)?;
    let cells = number_at(alloc, b"world.", table, keys::CELLS)?;
    let locks = number_at(alloc, b"world.", table, keys::LOCKS)?;
    let frames = number_at(alloc, b"world.", table, keys::FRAMES)?;
    let pages = number_at(alloc, b"world.", table, keys::PAGES)?;
    let slots = number_at(alloc, b"world.", table, keys::SLOTS)?;
    Ok(WorldSize {
        cells: cells as u16,
        locks: locks as u16,
        frames: frames as u16,
        pages: pages as u16,
        slots: slots as u16,
    })
}
