//! Two customers of a ticket lock, one of whom comes twice. The program makes the run in which they take tickets in
//! the order 0 1 0, and prints its report.
#![tactic(auto)]

mod customer;

ghost use Rattle.std.specs.Prelude.{IfOk};
ghost use Rattle.run_rules.specs.Plan.{IsValidPlan};

use anyhow::Result;
use customer::{Customer, NEXT_TICKET, TILL};
use draw_split::Weights;
use event_class::{Pickable, Selection};
use pure_run::{Plan, run_inline};
use report_text::report;
use seed_draws::{LooseTape, StrictTape};
use std::alloc::Global;
use std::io::{self, Write};
use surw_base::OutOfMemory;
use test_world::{Monitor, WorldSize};
use walk_rules::{Rule, Walk};

// Two cells for the lock and one for the till.
const WORLD: WorldSize = WorldSize {
    cells: 3,
    locks: 0,
    frames: 0,
    pages: 0,
    slots: 0,
};

fn main(rt: HostRuntime) -> Result<()> {
    let plan = plan(rt.alloc())?;
    let run = run_inline(rt.alloc(), &plan)?;
    let text = report(rt.alloc(), &run)?;
    io::writer(&rt).write_all(text.as_slice())?;
    Ok(())
}

// The plan of the run. The taking of a ticket is selected, so each customer has its payments for its count. The
// selected draws name the order 0 1 0, and by the other draws both customers hold a ticket before one is served.
fn plan(alloc: Global) -> Result<Plan<Customer, StrictTape, LooseTape>, OutOfMemory>
    ensures { IfOk result IsValidPlan }
{
    let mut routines = Vec::new(alloc);
    routines.push(Customer::new(Vec::from_slice(alloc, &[5, 1])?))?;
    routines.push(Customer::new(Vec::from_slice(alloc, &[2])?))?;
    let selected = Vec::from_slice(alloc, &[1, 1, 0])?;
    let other = Vec::from_slice(alloc, &[0, 1, 1, 0, 0, 1, 0, 0, 0, 0, 1, 1, 1, 1])?;
    let paid = Monitor::CellEnd {
        cell: TILL as u16,
        value: 8,
    };
    Ok(Plan {
        world: WORLD,
        routines,
        selection: Selection::new(Vec::from_slice(alloc, &[Pickable::CellNo(NEXT_TICKET)])?),
        walk: Walk::new(alloc, Rule::Surw, Weights::new(&[2, 1]))?,
        selected: StrictTape::new(selected),
        other: LooseTape::new(other),
        max_steps: 100,
        monitors: Vec::from_slice(alloc, &[paid])?,
    })
}
