ghost use Rattle.std.specs.Prelude.{◌≡◌, ◌≤◌, ◌++◌, ◌≤ℤ◌, ◌||◌, All, int_lt, map, pos, nat_abs, length, option_map, IfOk, IfErr, Ok, Err};
ghost use Rattle.std.specs.List.{list_any};
ghost use Rattle.std.specs.Str.{bytes_eq};
ghost use Rattle.toml.specs.Data.{as_integer, get_member};
ghost use Rattle.toml.specs.View.{view, items_view, table_view};
ghost use Rattle.scenario_toml.specs.declared.fault.ScenarioFault.TheVariants.{Name};
ghost use Rattle.scenario_toml.specs.Faults.{IsFault, IsFaultOf};
ghost use Rattle.scenario_toml.specs.Rules.{rule_of, IsRule};
ghost use Rattle.scenario_toml.specs.Values.{number, number_in, number_item, optional_number_in, boolean_in, text_in, array, list, first_unknown, only};

use crate::keys::NumberKey;
use crate::read::items::{Item, read_items};
use crate::{KeyName, NameText, ScenarioFault};
use std::alloc::Global;
use surw_base::OutOfMemory;
use toml::{Table, Value};

/// The value at a key.
pub(crate) fn value_at<'a>(table: &'a Table, name: &str) -> Option<&'a Value>
    ensures { option_map (λ v. view v.now) result ≡ get_member name.now (table_view table.now) }
{
    table.get(name)
}

// A whole number in its range.
fn number(key: KeyName, value: &Value, least: i64, most: i64) -> Result<u64, ScenarioFault>
    requires { pos 0 ≤ℤ least }
    ensures same { result ≡ number key least most (as_integer (view value.now)) }
    ensures within { IfOk result (λ n. (nat_abs least ≤ n) × (n ≤ nat_abs most)) }
{
    match value.as_integer() {
        None => Err(ScenarioFault::WrongKind { key }),
        Some(kept) => {
            if is_outside(kept, least, most) {
                return Err(ScenarioFault::Range {
                    key,
                    kept,
                    least,
                    most,
                });
            }
            Ok(kept as u64)
        }
    }
}

// Whether a number is out of its range.
fn is_outside(kept: i64, least: i64, most: i64) -> bool
    ensures { result ≡ (int_lt kept least || int_lt most kept) }
{
    kept < least || kept > most
}

/// A whole number from 0 on that is an item of the array with this key.
pub(crate) fn number_item(
    alloc: Global,
    key: &KeyName,
    place: usize,
    value: &Value,
    most: i64,
) -> Result<u64, ScenarioFault>
    ensures ok { IfOk result (λ n. number_item most key.now place (view value.now) ≡ Ok n) }
    ensures fault { IfErr result (IsFaultOf (number_item most key.now place (view value.now))) }
    ensures within { IfOk result (λ n. n ≤ nat_abs most) }
{
    match value.as_integer() {
        Some(kept) if !is_outside(kept, 0, most) => Ok(kept as u64),
        // Only a fault names its item, since each name takes memory and a tape has many items.
        _ => number(key.at(alloc, place)?, value, 0, most),
    }
}

/// The number of a key in a table, where the path stands before the key's name.
pub(crate) fn number_at(
    alloc: Global,
    path: &[u8],
    table: &Table,
    rule: NumberKey,
) -> Result<u64, ScenarioFault>
    requires { IsRule rule }
    ensures ok { IfOk result (λ n. number_in path.now (table_view table.now) (rule_of rule) ≡ Ok n) }
    ensures fault { IfErr result (IsFaultOf (number_in path.now (table_view table.now) (rule_of rule))) }
    ensures within { IfOk result (λ n. (nat_abs rule.least ≤ n) × (n ≤ nat_abs rule.most)) }
{
    let key = KeyName::new(alloc, path, rule.name)?;
    match value_at(table, rule.name) {
        None => match rule.default {
            None => Err(ScenarioFault::Missing { key }),
            Some(default) => Ok(default),
        },
        Some(value) => number(key, value, rule.least, rule.most),
    }
}

/// The number of a key that may be absent.
pub(crate) fn optional_number_at(
    alloc: Global,
    path: &[u8],
    table: &Table,
    rule: NumberKey,
) -> Result<Option<u64>, ScenarioFault>
    requires { IsRule rule }
    ensures ok { IfOk result (λ n. optional_number_in path.now (table_view table.now) (rule_of rule) ≡ Ok n) }
    ensures fault { IfErr result (IsFaultOf (optional_number_in path.now (table_view table.now) (rule_of rule))) }
{
    match value_at(table, rule.name) {
        None => Ok(None),
        Some(value) => {
            let key = KeyName::new(alloc, path, rule.name)?;
            Ok(Some(number(key, value, rule.least, rule.most)?))
        }
    }
}

/// The boolean of a key in a table, or the default where it is absent.
pub(crate) fn boolean_at(
    alloc: Global,
    path: &[u8],
    table: &Table,
    name: &str,
    default: bool,
) -> Result<bool, ScenarioFault>
    ensures ok { IfOk result (λ found. boolean_in path.now (table_view table.now) name.now default ≡ Ok found) }
    ensures fault { IfErr result (IsFaultOf (boolean_in path.now (table_view table.now) name.now default)) }
{
    match value_at(table, name) {
        None => Ok(default),
        Some(value) => match value.as_bool() {
            Some(found) => Ok(found),
            None => Err(ScenarioFault::WrongKind {
                key: KeyName::new(alloc, path, name)?,
            }),
        },
    }
}

/// The text of a key in a table, where the path stands before the key's name.
pub(crate) fn text_at<'a>(
    alloc: Global,
    path: &[u8],
    table: &'a Table,
    name: &str,
) -> Result<&'a str, ScenarioFault>
    ensures ok { IfOk result (λ text. text_in path.now (table_view table.now) name.now ≡ Ok text.now) }
    ensures fault { IfErr result (IsFaultOf (text_in path.now (table_view table.now) name.now)) }
{
    let key = KeyName::new(alloc, path, name)?;
    match value_at(table, name) {
        None => Err(ScenarioFault::Missing { key }),
        Some(value) => match value.as_str() {
            None => Err(ScenarioFault::WrongKind { key }),
            Some(text) => Ok(text),
        },
    }
}

/// The fault that a text is none of the words of this key.
pub(crate) fn not_named(alloc: Global, key: KeyName, text: &[u8]) -> ScenarioFault
    ensures { IsFault (Name key text.now) result }
{
    match NameText::new(alloc, text) {
        Ok(text) => ScenarioFault::Name { key, text },
        Err(OutOfMemory) => ScenarioFault::OutOfMemory,
    }
}

/// The items of a value that has to be an array of at most so many, at this key of a table.
pub(crate) fn array_of<'a>(
    alloc: Global,
    path: &[u8],
    name: &str,
    value: &'a Value,
    most: u32,
) -> Result<&'a [Value], ScenarioFault>
    ensures ok { IfOk result (λ items. array (path.now ++ name.now) most (view value.now) ≡ Ok (items_view items.now)) }
    ensures fault { IfErr result (IsFaultOf (array (path.now ++ name.now) most (view value.now))) }
    ensures few { IfOk result (λ items. length items.now ≤ most) }
{
    match value.as_array() {
        None => Err(ScenarioFault::WrongKind {
            key: KeyName::new(alloc, path, name)?,
        }),
        Some(items) => {
            let items = items.as_slice();
            if items.len() > most as usize {
                return Err(ScenarioFault::Range {
                    key: KeyName::new(alloc, path, name)?,
                    kept: items.len() as i64,
                    least: 0,
                    most: i64::from(most),
                });
            }
            Ok(items)
        }
    }
}

/// The list of a value that has to be an array of at most so many items, at this key of a table.
pub(crate) fn list_of<T: Item>(
    alloc: Global,
    path: &[u8],
    name: &str,
    value: &Value,
    most: u32,
) -> Result<Vec<T>, ScenarioFault>
    ensures ok { IfOk result (λ found. list T.item (path.now ++ name.now) most (view value.now) ≡ Ok found.items) }
    ensures fault { IfErr result (IsFaultOf (list T.item (path.now ++ name.now) most (view value.now))) }
    ensures kept { IfOk result (λ found. All T.IsKept found.items) }
    ensures few { IfOk result (λ found. length found.items ≤ most) }
{
    let items = array_of(alloc, path, name, value, most)?;
    let key = KeyName::new(alloc, path, name)?;
    read_items(alloc, &key, items)
}

/// Refuses a table that has a key but these, where the path stands before the keys' names.
pub(crate) fn only(
    alloc: Global,
    path: &[u8],
    names: &[&str],
    table: &Table,
) -> Result<(), ScenarioFault>
    ensures ok { IfOk result (λ _. only path.now (map (λ name. name.now) names.now) (table_view table.now) ≡ Ok tt) }
    ensures fault { IfErr result (IsFaultOf (only path.now (map (λ name. name.now) names.now) (table_view table.now))) }
{
    match least_unknown(names, table) {
        None => Ok(()),
        Some(name) => Err(ScenarioFault::Unknown {
            key: KeyName::new(alloc, path, name)?,
        }),
    }
}

// The least key of a table that isn't among these.
fn least_unknown<'a>(names: &[&str], table: &'a Table) -> Option<&'a str>
    ensures { option_map (λ name. name.now) result ≡ first_unknown (map (λ name. name.now) names.now) (table_view table.now) }
{
    for (key, _) in table {
        let key = key.as_str();
        if !is_among(names, key) {
            return Some(key);
        }
    }
    None
}

// Whether a name is among these.
fn is_among(names: &[&str], key: &str) -> bool
    ensures { result ≡ list_any (λ name. bytes_eq name key.now) (map (λ name. name.now) names.now) }
{
    for name in names {
        if *name == key {
            return true;
        }
    }
    false
}
