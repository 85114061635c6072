ghost use Rattle.std.specs.Prelude.{◌≡◌, ◌≤◌, IfOk, length, sum};
ghost use Rattle.surw_base.specs.declared.limits.TheConstants.{THREADS, STEPS};
ghost use Rattle.walk_rules.specs.Walk.{IsDepth};
ghost use Rattle.run_rules.specs.Plan.{IsValidPlan};

use super::*;
use crate::{Entry, Verdict};
use draw_split::Weights;
use event_class::{Event, Pickable, Selection};
use seed_draws::{LooseTape, StrictTape};
use std::process::Abort;
use std::test::Fail;
use surw_base::{STEPS, THREADS};
use test_world::{Monitor, World, WorldSize};
use walk_rules::{Rule, Walk};

const ADD: Event = Event::Add { c: 0, v: 1 };

/// Adds one to cell 0 so many times.
#[derive(Clone, Copy, Debug, PartialEq, Eq)]
struct Repeated {
    left: u64,
}

impl Routine for Repeated {
    ghost use Rattle.std.specs.Prelude.{◌-◌, ltb, if◌then◌else◌, None, Some};
    ghost use Rattle.event_class.specs.declared.event.Event.TheVariants.{Add};

    ghost announced = { λ repeated. if ltb 0 repeated.left then Some (Add 0 1) else None };

    ghost after_reply = { λ repeated reply. record { left = repeated.left - 1 } };

    fn announce(&self) -> Option<Event> {
        if self.left > 0 { Some(ADD) } else { None }
    }

    fn take(&mut self, _reply: u64) {
        self.left -= 1;
    }

    fn copy(&self, _alloc: Global) -> Result<Repeated, OutOfMemory> {
        Ok(*self)
    }
}

// A world of one cell.
const SIZE: WorldSize = WorldSize {
    cells: 1,
    locks: 0,
    frames: 0,
    pages: 0,
    slots: 0,
};

// A plan of these routines. Every event is selected, the other draws are 0, and it is watched whether cell 0 is 2
// at the end.
fn plan(
    rt: &HostRuntime,
    rule: Rule,
    routines: &[Repeated],
    counts: &[u32],
    draws: &[u64],
    max_steps: u32,
) -> Result<Plan<Repeated, StrictTape, LooseTape>, Fail>
    requires depth { IsDepth rule }
    requires threads { length counts.now ≤ THREADS }
    requires counted { length counts.now ≡ length routines.now }
    requires few { sum counts.now ≤ STEPS }
    requires short { length draws.now ≤ STEPS }
    requires some { 1 ≤ max_steps }
    requires most { max_steps ≤ STEPS }
    ensures { IfOk result (λ plan. IsValidPlan plan) }
{
    let routines = Vec::from_slice(rt.alloc(), routines)?;
    let every = Vec::from_slice(rt.alloc(), &[Pickable::Every])?;
    let draws = Vec::from_slice(rt.alloc(), draws)?;
    let watched = Monitor::CellEnd { cell: 0, value: 2 };
    let monitors = Vec::from_slice(rt.alloc(), &[watched])?;
    Ok(Plan {
        world: SIZE,
        routines,
        selection: Selection::new(every),
        walk: Walk::new(rt.alloc(), rule, Weights::new(counts))?,
        selected: StrictTape::new(draws),
        other: LooseTape::new(Vec::new(rt.alloc())),
        max_steps,
        monitors,
    })
}

// What is told of a run at its end.
#[derive(Clone, Copy, Debug, PartialEq, Eq)]
struct Told {
    verdict: Verdict,
    steps: usize,
    last: Option<Entry>,
    threads: usize,
    // The value of the cell, and where its monitor failed.
    cell: Option<u64>,
    failed: Option<u32>,
    bent: u64,
}

// The value of the cell of a world.
fn cell(world: &World) -> Option<u64> {
    if world.size().cells == 0 {
        return None;
    }
    Some(world.cell(0))
}

// Where the monitor of a run failed.
fn failed(run: &Run) -> Option<u32> {
    if run.monitors() == 0 {
        return None;
    }
    run.failed(0)
}

// What is told of a run.
fn tell(run: &Run) -> Told {
    Told {
        verdict: run.verdict(),
        steps: run.journal().len(),
        last: run.journal().last().copied(),
        threads: run.threads(),
        cell: cell(run.world()),
        failed: failed(run),
        bent: run.bent(),
    }
}

// What is told of the run of a plan.
fn told_of(rt: &HostRuntime, plan: Plan<Repeated, StrictTape, LooseTape>) -> Result<Told, Fail>
    requires { IsValidPlan plan }
{
    let run = run_inline(rt.alloc(), &plan)?;
    Ok(tell(&run))
}

// Asserts that this was told.
fn assert_told(rt: &impl Abort, told: Result<Told, Fail>, wanted: Told) -> Result<(), Fail> {
    assert_eq!(rt; told?, wanted);
    Ok(())
}

// The entry of an add by a thread.
fn add(thread: u8, reply: u64) -> Option<Entry> {
    let thread = ThreadNo::new(thread)?;
    Some(Entry {
        thread,
        event: ADD,
        reply,
        forced: false,
    })
}

// A plan of one thread of two adds, under URW.
fn two_adds(
    rt: &HostRuntime,
    draws: &[u64],
    max_steps: u32,
) -> Result<Plan<Repeated, StrictTape, LooseTape>, Fail>
    requires short { length draws.now ≤ STEPS }
    requires some { 1 ≤ max_steps }
    requires most { max_steps ≤ STEPS }
    ensures { IfOk result (λ plan. IsValidPlan plan) }
{
    plan(
        rt,
        Rule::Urw,
        &[Repeated { left: 2 }],
        &[2],
        draws,
        max_steps,
    )
}

// As many threads as there can be, which make as many steps as there can be, under the plain rule.
fn crowd(rt: &HostRuntime) -> Result<Plan<Repeated, StrictTape, LooseTape>, Fail>
    ensures { IfOk result (λ plan. IsValidPlan plan) }
{
    let each = Repeated { left: 4_096 };
    plan(rt, Rule::Plain, &[each; THREADS], &[0; THREADS], &[], STEPS)
}

#[test]
fn a_routine_of_the_callers_own_is_run(rt: HostRuntime) -> Result<(), Fail> {
    let wanted = Told {
        verdict: Verdict::Ended,
        steps: 2,
        last: add(0, 1),
        threads: 1,
        cell: Some(2),
        failed: None,
        bent: 0,
    };
    let told = told_of(&rt, two_adds(&rt, &[1, 0], 8)?);
    assert_told(&rt, told, wanted)
}

#[test]
fn as_many_threads_and_steps_as_there_can_be(rt: HostRuntime) -> Result<(), Fail> {
    let wanted = Told {
        verdict: Verdict::Ended,
        steps: 65_536,
        last: add(15, 65_535),
        threads: THREADS,
        cell: Some(65_536),
        failed: Some(65_536),
        bent: 0,
    };
    let told = told_of(&rt, crowd(&rt)?);
    assert_told(&rt, told, wanted)
}

// Whether a core that was opened with a plan of two adds says that it was opened with one of these draws and this
// step limit.
fn is_opened_as(rt: &HostRuntime, draws: &[u64], max_steps: u32) -> Result<bool, Fail>
    requires short { length draws.now ≤ STEPS }
    requires some { 1 ≤ max_steps }
    requires most { max_steps ≤ STEPS }
{
    let plan = two_adds(rt, &[1, 0], 8)?;
    let other = two_adds(rt, draws, max_steps)?;
    let core = Core::open(rt.alloc(), &plan)?;
    Ok(core.opened_as(&other))
}

#[test]
fn a_core_knows_the_plan_that_it_was_opened_with(rt: HostRuntime) -> Result<(), Fail> {
    let same = is_opened_as(&rt, &[1, 0], 8)?;
    let shorter = is_opened_as(&rt, &[1, 0], 7)?;
    let other = is_opened_as(&rt, &[1, 1], 8)?;
    assert_eq!(rt; [same, shorter, other], [true, false, false]);
    Ok(())
}
