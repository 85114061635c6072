ghost use Rattle.std.specs.Prelude.{◌≡◌, IfOk, IfErr, Ok};
ghost use Rattle.toml.specs.View.{table_view};
ghost use Rattle.scenario_toml.specs.Faults.{IsFaultOf};
ghost use Rattle.scenario_toml.specs.CacheUser.{cache_user_in};

use crate::ScenarioFault;
use crate::keys::{self, NumberKey};
use crate::read::values::{number_at, only, optional_number_at};
use routine_kit::{AnyRoutine, CacheUser};
use std::alloc::Global;
use toml::Table;

const EXPECT: NumberKey = NumberKey {
    name: "expect",
    least: 0,
    most: i64::MAX,
    default: None,
};

const LOCK: NumberKey = NumberKey {
    name: "lock",
    least: 0,
    most: surw_base::LOCKS as i64 - 1,
    default: None,
};

/// A routine that reads a page through the cache.
#[tactic(auto, unfolding(crate::specs::CacheUser::cache_user_in))]
pub(crate) fn read_cache_user(
    alloc: Global,
    path: &[u8],
    table: &Table,
) -> Result<AnyRoutine, ScenarioFault>
    ensures ok { IfOk result (λ found. cache_user_in path.now (table_view table.now) ≡ Ok found) }
    ensures fault { IfErr result (IsFaultOf (cache_user_in path.now (table_view table.now))) }
{
    only(alloc, path, &["kind", "page", "expect", "lock"], table)?;
    let page = number_at(alloc, path, table, keys::PAGE)?;
    let expect = number_at(alloc, path, table, EXPECT)?;
    let lock = optional_number_at(alloc, path, table, LOCK)?;
    Ok(AnyRoutine::CacheUser(CacheUser::new(page, expect, lock)))
}
