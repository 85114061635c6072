ghost use Rattle.std.specs.Prelude.{◌≡◌, ◌≤◌, All, IfOk, length};

use crate::Line;
use std::alloc::Global;
use std::marker::Model;
use surw_base::{LINES, OutOfMemory};

/// A list of lines, at most `LINES` of them, in which each register is below 4 and each `over` at most `LINES`. A
/// contract sees the list.
#[derive(Debug, Drop)]
pub struct Lines {
    items: Vec<Line>,
}

impl Model for Lines {
    ghost use Rattle.std.specs.Prelude.{List};
    ghost use Rattle.routine_kit.specs.declared.line.Line.{Line};

    ghost Value = { List Line };

    ghost use Rattle.routine_kit.specs.Line.{AreLines};

    ghost view = { λ lines. lines.items.items };

    ghost invariant = { λ lines. AreLines lines.items.items };
}

impl Lines {
    ghost use Rattle.std.specs.Prelude.{◌≡◌, ◌≤◌, All, IfOk, length};
    ghost use Rattle.routine_kit.specs.Line.{IsLine};

    /// These lines. No error comes today.
    pub fn new(_alloc: Global, items: Vec<Line>) -> Result<Lines, OutOfMemory>
        requires few { length items.items ≤ LINES }
        requires each { All IsLine items.items }
        ensures { IfOk result (λ lines. lines ≡ items.items) }
    {
        Ok(Lines { items })
    }

    /// The lines.
    pub fn as_slice(&self) -> &[Line]
        ensures same { result.now ≡ self.now }
        ensures few { length self.now ≤ LINES }
        ensures each { All IsLine self.now }
    {
        self.items.as_slice()
    }

    /// The same lines. An error comes only where memory is refused.
    pub fn copy(&self, alloc: Global) -> Result<Lines, OutOfMemory>
        ensures { IfOk result (λ copy. copy ≡ self.now) }
    {
        let items = Vec::from_slice(alloc, self.items.as_slice())?;
        Ok(Lines { items })
    }
}
