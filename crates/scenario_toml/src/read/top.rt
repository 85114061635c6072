ghost use Rattle.std.specs.Prelude.{◌≡◌, ◌≤◌, codes, length, option_map, IfOk, IfErr, IfSome, Ok};
ghost use Rattle.surw_base.specs.declared.limits.TheConstants.{STEPS};
ghost use Rattle.toml.specs.Data.{get_member};
ghost use Rattle.toml.specs.View.{items_view, table_view};
ghost use Rattle.scenario_toml.specs.Faults.{IsFaultOf};
ghost use Rattle.scenario_toml.specs.TopTable.{lists, parts, select_in, settings, strategy_in, table_in, threads_in, watches_in};

use crate::read::counts::read_counts;
use crate::read::items::Item;
use crate::read::values::{array_of, list_of, not_named, number_at, value_at};
use crate::watch::Watch;
use crate::{KeyName, ScenarioFault, Strategy, keys};
use event_class::{Pickable, read_pickable};
use std::alloc::Global;
use surw_base::{DEPTH, MONITORS, THREADS};
use toml::{Table, Value};

/// The keys of the top table.
pub(crate) const TOP_NAMES: [&str; 10] = [
    "max_steps",
    "strategy",
    "seed",
    "depth",
    "select",
    "counts",
    "monitors",
    "world",
    "tapes",
    "thread",
];

/// The numbers and words of the top table.
#[derive(Clone, Copy, Debug)]
pub(crate) struct Settings {
    /// The most steps.
    pub(crate) max_steps: u32,
    /// The strategy.
    pub(crate) strategy: Strategy,
    /// The seed.
    pub(crate) seed: u64,
    /// The depth.
    pub(crate) depth: u8,
}

/// The numbers and words of the top table.
#[tactic(auto, unfolding(crate::specs::TopTable::settings))]
pub(crate) fn read_settings(alloc: Global, table: &Table) -> Result<Settings, ScenarioFault>
    ensures ok { IfOk result (λ s.
        settings (table_view table.now)
        ≡ Ok (record { max_steps = s.max_steps; strategy = s.strategy; seed = s.seed; depth = s.depth })) }
    ensures fault { IfErr result (IsFaultOf (settings (table_view table.now))) }
    ensures steps { IfOk result (λ s. (1 ≤ s.max_steps) × (s.max_steps ≤ STEPS)) }
    ensures depth { IfOk result (λ s. (1 ≤ s.depth) × (s.depth ≤ DEPTH)) }
{
    let max_steps = number_at(alloc, b"", table, keys::MAX_STEPS)?;
    let strategy = strategy_at(alloc, table)?;
    let seed = number_at(alloc, b"", table, keys::SEED)?;
    let depth = number_at(alloc, b"", table, keys::DEPTH)?;
    Ok(Settings {
        max_steps: max_steps as u32,
        strategy,
        seed,
        depth: depth as u8,
    })
}

// The strategy that the file names, and SURW where it names none.
fn strategy_at(alloc: Global, table: &Table) -> Result<Strategy, ScenarioFault>
    ensures ok { IfOk result (λ strategy. strategy_in (get_member (codes "strategy") (table_view table.now)) ≡ Ok strategy) }
    ensures fault { IfErr result (IsFaultOf (strategy_in (get_member (codes "strategy") (table_view table.now)))) }
{
    match value_at(table, "strategy") {
        None => Ok(Strategy::Surw),
        Some(value) => {
            let key = KeyName::new(alloc, b"", "strategy")?;
            match value.as_str() {
                None => Err(ScenarioFault::WrongKind { key }),
                Some(text) => match Strategy::of(text.as_bytes()) {
                    Some(strategy) => Ok(strategy),
                    None => Err(not_named(alloc, key, text.as_bytes())),
                },
            }
        }
    }
}

/// The lists of the top table.
#[derive(Debug, Drop)]
pub(crate) struct Lists {
    /// What is selected.
    pub(crate) select: Vec<Pickable>,
    /// The counts, where they are given.
    pub(crate) counts: Option<Vec<u32>>,
    /// What is watched for.
    pub(crate) watches: Vec<Watch>,
}

/// The lists of the top table.
#[tactic(auto, unfolding(crate::specs::TopTable::lists))]
pub(crate) fn read_lists(alloc: Global, table: &Table) -> Result<Lists, ScenarioFault>
    ensures ok { IfOk result (λ l.
        lists (table_view table.now)
        ≡ Ok (record { select = l.select.items; counts = option_map (λ c. c.items) l.counts; watches = l.watches.items })) }
    ensures fault { IfErr result (IsFaultOf (lists (table_view table.now))) }
    ensures few { IfOk result (λ l. length l.watches.items ≤ MONITORS) }
{
    let select = select_at(alloc, table)?;
    let counts = read_counts(alloc, table)?;
    let watches = watches_at(alloc, table)?;
    Ok(Lists {
        select,
        counts,
        watches,
    })
}

// What is selected, and every event where the file doesn't say.
fn select_at(alloc: Global, table: &Table) -> Result<Vec<Pickable>, ScenarioFault>
    ensures ok { IfOk result (λ found. select_in (table_view table.now) ≡ Ok found.items) }
    ensures fault { IfErr result (IsFaultOf (select_in (table_view table.now))) }
{
    match value_at(table, "select") {
        None => Ok(Vec::from_slice(alloc, &[Pickable::Every])?),
        Some(value) => list_of(alloc, b"", "select", value, keys::PICKABLES),
    }
}

// What is watched for.
fn watches_at(alloc: Global, table: &Table) -> Result<Vec<Watch>, ScenarioFault>
    ensures ok { IfOk result (λ found. watches_in (table_view table.now) ≡ Ok found.items) }
    ensures fault { IfErr result (IsFaultOf (watches_in (table_view table.now))) }
    ensures few { IfOk result (λ found. length found.items ≤ MONITORS) }
{
    match value_at(table, "monitors") {
        None => Ok(Vec::new(alloc)),
        Some(value) => list_of(alloc, b"", "monitors", value, MONITORS as u32),
    }
}

/// The tables of the top table, and its array of threads.
#[derive(Clone, Copy)]
pub(crate) struct Parts<'a> {
    /// The table `world`.
    pub(crate) world: Option<&'a Table>,
    /// The table `tapes`.
    pub(crate) tapes: Option<&'a Table>,
    /// The array `thread`, at most `THREADS` items.
    pub(crate) threads: Option<&'a [Value]>,
}

/// The tables of the top table, looked at for their kind alone, and its array of threads with its length.
#[tactic(auto, unfolding(crate::specs::TopTable::parts))]
pub(crate) fn read_parts<'a>(alloc: Global, table: &'a Table) -> Result<Parts<'a>, ScenarioFault>
    ensures ok { IfOk result (λ p.
        parts (table_view table.now)
        ≡ Ok (record {
          world = option_map (λ t. table_view t.now) p.world;
          tapes = option_map (λ t. table_view t.now) p.tapes;
          threads = option_map (λ t. items_view t.now) p.threads;
        })) }
    ensures fault { IfErr result (IsFaultOf (parts (table_view table.now))) }
    ensures few { IfOk result (λ p. IfSome p.threads (λ t. length t.now ≤ THREADS)) }
{
    let world = table_at(alloc, table, "world")?;
    let tapes = table_at(alloc, table, "tapes")?;
    let threads = threads_at(alloc, table)?;
    Ok(Parts {
        world,
        tapes,
        threads,
    })
}

// The table of a key.
fn table_at<'a>(
    alloc: Global,
    table: &'a Table,
    name: &str,
) -> Result<Option<&'a Table>, ScenarioFault>
    ensures ok { IfOk result (λ found. table_in name.now (table_view table.now) ≡ Ok (option_map (λ t. table_view t.now) found)) }
    ensures fault { IfErr result (IsFaultOf (table_in name.now (table_view table.now))) }
{
    match value_at(table, name) {
        None => Ok(None),
        Some(value) => match value.as_table() {
            Some(found) => Ok(Some(found)),
            None => Err(ScenarioFault::WrongKind {
                key: KeyName::new(alloc, b"", name)?,
            }),
        },
    }
}

// The array `thread`.
fn threads_at<'a>(alloc: Global, table: &'a Table) -> Result<Option<&'a [Value]>, ScenarioFault>
    ensures ok { IfOk result (λ found. threads_in (table_view table.now) ≡ Ok (option_map (λ t. items_view t.now) found)) }
    ensures fault { IfErr result (IsFaultOf (threads_in (table_view table.now))) }
    ensures few { IfOk result (λ found. IfSome found (λ t. length t.now ≤ THREADS)) }
{
    match value_at(table, "thread") {
        None => Ok(None),
        Some(value) => Ok(Some(array_of(alloc, b"", "thread", value, THREADS as u32)?)),
    }
}

impl Item for Pickable {
    ghost use Rattle.scenario_toml.specs.TopTable.{select_item};

    ghost item = { select_item };

    ghost IsKept = { λ _. Unit {0} };

    fn read(
        alloc: Global,
        key: &KeyName,
        place: usize,
        value: &Value,
    ) -> Result<Pickable, ScenarioFault> {
        let key = key.at(alloc, place)?;
        match value.as_str() {
            None => Err(ScenarioFault::WrongKind { key }),
            Some(text) => match read_pickable(text.as_bytes()) {
                Some(item) => Ok(item),
                None => Err(not_named(alloc, key, text.as_bytes())),
            },
        }
    }
}
