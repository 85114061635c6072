ghost use Rattle.std.specs.Prelude.{◌≡◌, IfOk};
ghost use Rattle.surw_base.specs.declared.limits.TheConstants.{THREADS};
ghost use Rattle.scenario_toml.specs.Made.{add_cell, load_cell, made, made_lines, made_routine, made_routines};

use crate::{CountsRule, Scenario, Strategy};
use event_class::{Pickable, Selection};
use routine_kit::{AnyRoutine, Line, Lines, Operand, Shape, Steps};
use std::alloc::Global;
use surw_base::{OutOfMemory, STEPS, THREADS};
use test_world::WorldSize;

/// How many cells the world of a made scenario has.
pub(crate) const MADE_CELLS: u16 = 8;

/// How many times each thread of a made scenario runs its lines.
pub(crate) const MADE_TIMES: u16 = 1_250;

/// The depth of a made scenario, which is that of a file that names none.
pub(crate) const MADE_DEPTH: u8 = 3;

/// The scenario that this number makes: `THREADS` threads over a world of 8 cells and nothing else, under SURW, with
/// the number as its seed and cell 0 selected. Thread `i` runs 1,250 times the lines `load A -> r0`, `plus r0 1`,
/// `store A r0` and `add B 1`, where `A` is the sum of the number and `i`, modulo 8, and `B` that of the number and
/// `3 * i`, modulo 8. So the threads make 60,000 events. The counts come from a profile, the steps are at most `STEPS`,
/// and there are no monitors and no tapes. An error comes only where memory is refused.
pub fn made_scenario(alloc: Global, number: u64) -> Result<Scenario, OutOfMemory>
    ensures { IfOk result (λ scenario. scenario ≡ made number) }
{
    let routines = made_routines(alloc, number)?;
    let select = Selection::new(Vec::from_slice(alloc, &[Pickable::CellNo(0)])?);
    Ok(Scenario {
        strategy: Strategy::Surw,
        seed: number,
        depth: MADE_DEPTH,
        max_steps: STEPS,
        select,
        counts: CountsRule::Profile,
        monitors: Vec::new(alloc),
        size: WorldSize {
            cells: MADE_CELLS,
            locks: 0,
            frames: 0,
            pages: 0,
            slots: 0,
        },
        tapes: None,
        routines,
    })
}

// The routines of all threads.
fn made_routines(alloc: Global, number: u64) -> Result<Vec<AnyRoutine>, OutOfMemory>
    ensures { IfOk result (λ routines. routines.items ≡ made_routines number THREADS) }
{
    let mut routines = Vec::with_capacity(alloc, THREADS)?;
    for thread in 0..THREADS as u8 {
        routines.push(made_routine(alloc, number, thread)?)?;
    }
    Ok(routines)
}

// The routine of a thread.
fn made_routine(alloc: Global, number: u64, thread: u8) -> Result<AnyRoutine, OutOfMemory>
    ensures { IfOk result (λ routine. routine ≡ made_routine number thread) }
{
    let lines = Lines::new(alloc, made_lines(alloc, number, thread)?)?;
    Ok(AnyRoutine::Steps(Steps::new(lines, MADE_TIMES)))
}

// The lines of a thread.
fn made_lines(alloc: Global, number: u64, thread: u8) -> Result<Vec<Line>, OutOfMemory>
    ensures { IfOk result (λ lines. lines.items ≡ made_lines number thread) }
{
    let cell = Operand::Num(load_cell(number, thread));
    let added = Operand::Num(add_cell(number, thread));
    let lines = [
        Line::Act {
            shape: Shape::Load { c: cell },
            into: Some(0),
        },
        Line::Plus {
            reg: 0,
            by: Operand::Num(1),
        },
        Line::Act {
            shape: Shape::Store {
                c: cell,
                v: Operand::Reg(0),
            },
            into: None,
        },
        Line::Act {
            shape: Shape::Add {
                c: added,
                v: Operand::Num(1),
            },
            into: None,
        },
    ];
    Ok(Vec::from_slice(alloc, &lines)?)
}

// The cell that a thread loads and stores. The remainder of the number is taken first, so that no sum overflows.
fn load_cell(number: u64, thread: u8) -> u64
    ensures { result ≡ load_cell number thread }
{
    let cells = u64::from(MADE_CELLS);
    (number % cells + u64::from(thread)) % cells
}

// The cell that a thread adds to, reckoned in the same way.
fn add_cell(number: u64, thread: u8) -> u64
    ensures { result ≡ add_cell number thread }
{
    let cells = u64::from(MADE_CELLS);
    (number % cells + 3 * u64::from(thread)) % cells
}

#[cfg(test)]
mod tests;
