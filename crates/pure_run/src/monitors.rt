ghost use Rattle.std.specs.Prelude.{◌≡◌, ℕ, All, IfOk, map, length};
ghost use Rattle.test_world.specs.Monitor.{CanWatch};
ghost use Rattle.pure_run.specs.Monitors.{failed_in, failed_then};

use std::alloc::Global;
use surw_base::OutOfMemory;
use test_world::{Monitor, World};

// Where each monitor fails in a new world; one of a cell is looked at when the run is over.
pub(crate) fn places_at_start(
    alloc: Global,
    world: &World,
    monitors: &[Monitor],
) -> Result<Vec<Option<u32>>, OutOfMemory>
    requires { All (CanWatch world.now.size) monitors.now }
    ensures { IfOk result (λ failed. failed.items ≡ map (failed_in world.now 0) monitors.now) }
{
    let mut failed = Vec::new(alloc);
    for monitor in monitors {
        failed.push(place_now(world, 0, monitor))?;
    }
    Ok(failed)
}

// Looks at each monitor that hasn't failed yet, after so many steps.
pub(crate) fn watch(failed: &mut Vec<Option<u32>>, world: &World, step: u32, monitors: &[Monitor])
    requires each { length failed.old.items ≡ length monitors.now }
    requires watched { All (CanWatch world.now.size) monitors.now }
    ensures { failed.new.items ≡ failed_then world.now step failed.old.items monitors.now }
{
    for (i, monitor) in monitors.iter().enumerate() {
        if failed[i].is_none() {
            if let Some(place) = place_now(world, step, monitor) {
                failed[i] = Some(place);
            }
        }
    }
}

// The step, where the monitor fails in this world and isn't one of a cell.
fn place_now(world: &World, step: u32, monitor: &Monitor) -> Option<u32>
    requires { CanWatch world.now.size monitor.now }
    ensures { result ≡ failed_in world.now step monitor.now }
{
    match monitor {
        Monitor::CellEnd { .. } => None,
        _ => world.failing(monitor).then_some(step),
    }
}
