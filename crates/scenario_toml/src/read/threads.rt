ghost use Rattle.std.specs.Prelude.{◌≡◌, ◌≤◌, IfOk, IfErr, IfSome, Ok, length, option_map};
ghost use Rattle.surw_base.specs.declared.limits.TheConstants.{THREADS};
ghost use Rattle.toml.specs.View.{items_view, table_view};
ghost use Rattle.scenario_toml.specs.Faults.{IsFaultOf};
ghost use Rattle.scenario_toml.specs.Thread.{routine_in, threads};

mod adder;
mod cache_user;
mod flusher;
mod log_writer;
mod steps;

use crate::read::items::{Item, read_items};
use crate::read::threads::adder::read_adder;
use crate::read::threads::cache_user::read_cache_user;
use crate::read::threads::flusher::read_flusher;
use crate::read::threads::log_writer::read_log_writer;
use crate::read::threads::steps::read_steps;
use crate::read::values::{not_named, text_at};
use crate::{KeyName, ScenarioFault};
use routine_kit::AnyRoutine;
use std::alloc::Global;
use toml::{Table, Value};

/// The routines of the array `thread`, and none where it is absent.
pub(crate) fn read_threads(
    alloc: Global,
    array: Option<&[Value]>,
) -> Result<Vec<AnyRoutine>, ScenarioFault>
    requires { IfSome array (λ t. length t.now ≤ THREADS) }
    ensures ok { IfOk result (λ found. threads (option_map (λ t. items_view t.now) array.entry) ≡ Ok found.items) }
    ensures fault { IfErr result (IsFaultOf (threads (option_map (λ t. items_view t.now) array.entry))) }
    ensures few { IfOk result (λ found. length found.items ≤ THREADS) }
{
    match array {
        None => Ok(Vec::new(alloc)),
        Some(array) => {
            let key = KeyName::new(alloc, b"", "thread")?;
            read_items(alloc, &key, array)
        }
    }
}

impl Item for AnyRoutine {
    ghost use Rattle.scenario_toml.specs.Thread.{thread_item};

    ghost item = { thread_item };

    ghost IsKept = { λ _. Unit {0} };

    fn read(
        alloc: Global,
        key: &KeyName,
        place: usize,
        value: &Value,
    ) -> Result<AnyRoutine, ScenarioFault> {
        let key = key.at(alloc, place)?;
        match value.as_table() {
            None => Err(ScenarioFault::WrongKind { key }),
            Some(table) => {
                let path = KeyName::new(alloc, key.as_bytes(), ".")?;
                read_routine(alloc, path.as_bytes(), table)
            }
        }
    }
}

// The routine of a thread's table, where the path stands before its keys' names.
#[tactic(auto, unfolding(crate::specs::Thread::routine_in))]
fn read_routine(alloc: Global, path: &[u8], table: &Table) -> Result<AnyRoutine, ScenarioFault>
    ensures ok { IfOk result (λ found. routine_in path.now (table_view table.now) ≡ Ok found) }
    ensures fault { IfErr result (IsFaultOf (routine_in path.now (table_view table.now))) }
{
    let kind = text_at(alloc, path, table, "kind")?;
    match kind {
        "steps" => read_steps(alloc, path, table),
        "adder" => read_adder(alloc, path, table),
        "cache_user" => read_cache_user(alloc, path, table),
        "flusher" => read_flusher(alloc, path, table),
        "log_writer" => read_log_writer(alloc, path, table),
        _ => {
            let key = KeyName::new(alloc, path, "kind")?;
            Err(not_named(alloc, key, kind.as_bytes()))
        }
    }
}
