ghost use Rattle.std.specs.Prelude.{◌≡◌, ◌<◌, ◌≤◌, ◌^◌, IfOk, IfErr, Ok, codes, length, option_map, sum};
ghost use Rattle.surw_base.specs.declared.limits.TheConstants.{STEPS, THREADS};
ghost use Rattle.toml.specs.Data.{as_array, as_str, get_member};
ghost use Rattle.toml.specs.View.{view, table_view};
ghost use Rattle.scenario_toml.specs.declared.counts_rule.CountsRule.TheVariants.{Given};
ghost use Rattle.scenario_toml.specs.Counts.{counts, counts_rule, for_each, items_or_text};
ghost use Rattle.scenario_toml.specs.Faults.{IsFaultOf};
ghost use Rattle.scenario_toml.specs.State.{HasCounts};

use crate::read::items::{Item, read_items};
use crate::read::values::{not_named, number_item, value_at};
use crate::{CountsRule, KeyName, ScenarioFault};
use draw_split::Weights;
use std::alloc::Global;
use surw_base::STEPS;
use toml::{Table, Value};

/// The counts of the key `counts`, as many as there are. None are given where it is absent or the word `profile`.
pub(crate) fn read_counts(alloc: Global, table: &Table) -> Result<Option<Vec<u32>>, ScenarioFault>
    ensures ok { IfOk result (λ found.
        counts (get_member (codes "counts") (table_view table.now)) ≡ Ok (option_map (λ c. c.items) found)) }
    ensures fault { IfErr result (IsFaultOf (counts (get_member (codes "counts") (table_view table.now)))) }
{
    match value_at(table, "counts") {
        None => Ok(None),
        Some(value) => counts_of(alloc, value),
    }
}

// The counts of a value, which is an array or a text.
fn counts_of(alloc: Global, value: &Value) -> Result<Option<Vec<u32>>, ScenarioFault>
    ensures ok { IfOk result (λ found.
        items_or_text (as_array (view value.now)) (as_str (view value.now)) ≡ Ok (option_map (λ c. c.items) found)) }
    ensures fault { IfErr result (IsFaultOf (items_or_text (as_array (view value.now)) (as_str (view value.now)))) }
{
    let key = KeyName::new(alloc, b"", "counts")?;
    if let Some(items) = value.as_array() {
        return Ok(Some(read_items(alloc, &key, items.as_slice())?));
    }
    match value.as_str() {
        None => Err(ScenarioFault::WrongKind { key }),
        Some("profile") => Ok(None),
        Some(text) => Err(not_named(alloc, key, text.as_bytes())),
    }
}

/// Where the counts of so many threads come from: those that are given, of which there has to be one for each thread,
/// with a sum of at most `STEPS`, and else those of a profile.
pub(crate) fn rule_of_counts(
    alloc: Global,
    counts: Option<Vec<u32>>,
    threads: usize,
) -> Result<CountsRule, ScenarioFault>
    requires { threads ≤ THREADS }
    ensures ok { IfOk result (λ rule. counts_rule (option_map (λ c. c.items) counts) threads ≡ Ok rule) }
    ensures fault { IfErr result (IsFaultOf (counts_rule (option_map (λ c. c.items) counts) threads)) }
    ensures counted { IfOk result (λ rule. HasCounts rule threads) }
{
    match counts {
        None => Ok(CountsRule::Profile),
        Some(counts) => Ok(CountsRule::Given(for_each(alloc, counts.as_slice(), threads)?)),
    }
}

// Counts, of which there has to be one for each thread, with a sum of at most `STEPS`.
fn for_each(alloc: Global, counts: &[u32], threads: usize) -> Result<Weights, ScenarioFault>
    requires { threads ≤ THREADS }
    ensures ok { IfOk result (λ found. for_each counts.now threads ≡ Ok (Given found)) }
    ensures fault { IfErr result (IsFaultOf (for_each counts.now threads)) }
    ensures counted { IfOk result (λ found. HasCounts (Given found) threads) }
{
    if counts.len() != threads {
        return Err(ScenarioFault::Range {
            key: KeyName::new(alloc, b"", "counts")?,
            kept: counts.len() as i64,
            least: threads as i64,
            most: threads as i64,
        });
    }
    let sum = sum_of(counts);
    if sum > u64::from(STEPS) {
        return Err(ScenarioFault::Range {
            key: KeyName::new(alloc, b"", "counts")?,
            kept: sum as i64,
            least: 0,
            most: i64::from(STEPS),
        });
    }
    Ok(Weights::new(counts))
}

// The sum of the counts of all threads.
fn sum_of(counts: &[u32]) -> u64
    requires { length counts.now ≤ THREADS }
    ensures same { result ≡ sum counts.now }
    ensures small { result < 2 ^ 40 }
{
    let mut sum = 0;
    for count in counts {
        sum += u64::from(*count);
    }
    sum
}

impl Item for u32 {
    ghost use Rattle.scenario_toml.specs.Counts.{count_item};

    ghost item = { count_item };

    ghost IsKept = { λ _. Unit {0} };

    fn read(
        alloc: Global,
        key: &KeyName,
        place: usize,
        value: &Value,
    ) -> Result<u32, ScenarioFault> {
        let count = number_item(alloc, key, place, value, i64::from(STEPS))?;
        Ok(count as u32)
    }
}
