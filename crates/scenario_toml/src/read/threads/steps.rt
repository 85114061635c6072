ghost use Rattle.std.specs.Prelude.{◌≡◌, ◌≤◌, All, IfOk, IfErr, Ok, length};
ghost use Rattle.surw_base.specs.declared.limits.TheConstants.{LINES};
ghost use Rattle.routine_kit.specs.Line.{IsLine};
ghost use Rattle.toml.specs.View.{table_view};
ghost use Rattle.scenario_toml.specs.Faults.{IsFaultOf};
ghost use Rattle.scenario_toml.specs.Steps.{lines_in, steps_in};

use crate::keys::NumberKey;
use crate::read::items::Item;
use crate::read::values::{list_of, not_named, number_at, only, value_at};
use crate::{KeyName, ScenarioFault};
use routine_kit::{AnyRoutine, Line, Lines, Steps, read_line};
use std::alloc::Global;
use surw_base::LINES;
use toml::{Table, Value};

const TIMES: NumberKey = NumberKey {
    name: "times",
    least: 1,
    most: surw_base::TIMES as i64,
    default: Some(1),
};

/// A routine of lines.
#[tactic(auto, unfolding(crate::specs::Steps::steps_in))]
pub(crate) fn read_steps(
    alloc: Global,
    path: &[u8],
    table: &Table,
) -> Result<AnyRoutine, ScenarioFault>
    ensures ok { IfOk result (λ found. steps_in path.now (table_view table.now) ≡ Ok found) }
    ensures fault { IfErr result (IsFaultOf (steps_in path.now (table_view table.now))) }
{
    only(alloc, path, &["kind", "lines", "times"], table)?;
    let lines = lines_at(alloc, path, table)?;
    let times = number_at(alloc, path, table, TIMES)?;
    let lines = Lines::new(alloc, lines)?;
    Ok(AnyRoutine::Steps(Steps::new(lines, times as u16)))
}

// The lines of a routine.
#[tactic(auto, unfolding(crate::specs::Steps::lines_in))]
fn lines_at(alloc: Global, path: &[u8], table: &Table) -> Result<Vec<Line>, ScenarioFault>
    ensures ok { IfOk result (λ lines. lines_in path.now (table_view table.now) ≡ Ok lines.items) }
    ensures fault { IfErr result (IsFaultOf (lines_in path.now (table_view table.now))) }
    ensures few { IfOk result (λ lines. length lines.items ≤ LINES) }
    ensures each { IfOk result (λ lines. All IsLine lines.items) }
{
    match value_at(table, "lines") {
        None => Err(ScenarioFault::Missing {
            key: KeyName::new(alloc, path, "lines")?,
        }),
        Some(value) => list_of(alloc, path, "lines", value, LINES as u32),
    }
}

impl Item for Line {
    ghost use Rattle.routine_kit.specs.Line.{IsLine};
    ghost use Rattle.scenario_toml.specs.Steps.{line_item};

    ghost item = { line_item };

    ghost IsKept = { IsLine };

    fn read(
        alloc: Global,
        key: &KeyName,
        place: usize,
        value: &Value,
    ) -> Result<Line, ScenarioFault> {
        let key = key.at(alloc, place)?;
        match value.as_str() {
            None => Err(ScenarioFault::WrongKind { key }),
            Some(text) => match read_line(text.as_bytes()) {
                Some(line) => Ok(line),
                None => Err(not_named(alloc, key, text.as_bytes())),
            },
        }
    }
}
