ghost use Rattle.std.specs.Prelude.{◌≡◌, ◌≤◌, IfOk, length};
ghost use Rattle.surw_base.specs.declared.limits.TheConstants.{THREADS, STEPS};
ghost use Rattle.run_rules.specs.Plan.{IsValidPlan};

use super::*;
use event_class::{Event, Pickable};
use seed_draws::LooseTape;
use std::process::Abort;
use std::test::Fail;
use surw_base::{STEPS, ThreadNo};
use test_world::WorldSize;

/// Makes the events of a list from a place on.
#[derive(Clone, Copy, Debug, PartialEq, Eq)]
struct Listed {
    events: [Event; 3],
    place: usize,
}

impl Routine for Listed {
    ghost use Rattle.std.specs.Prelude.{◌+◌, slice_get};

    ghost announced = { λ listed. slice_get listed.events listed.place };

    ghost after_reply = { λ listed reply. record listed { place = listed.place + 1 } };

    fn announce(&self) -> Option<Event> {
        self.events.get(self.place).copied()
    }

    fn take(&mut self, _reply: u64) {
        self.place += 1;
    }

    fn copy(&self, _alloc: Global) -> Result<Listed, OutOfMemory> {
        Ok(*self)
    }
}

// Adds to cell 0, which are selected, and one to cell 1 between them.
const ADDS: Listed = Listed {
    events: [
        Event::Add { c: 0, v: 1 },
        Event::Add { c: 1, v: 1 },
        Event::Add { c: 0, v: 1 },
    ],
    place: 0,
};

// Takes a lock again and again.
const ACQUIRES: Listed = Listed {
    events: [Event::Acquire { l: 0 }; 3],
    place: 1,
};

// A plan of these routines under SURW, whose own run has wrong counts and no draws.
fn plan(
    rt: &HostRuntime,
    routines: &[Listed],
    max_steps: u32,
) -> Result<Plan<Listed, StrictTape, LooseTape>, Fail>
    requires few { length routines.now ≤ THREADS }
    requires some { 1 ≤ max_steps }
    requires most { max_steps ≤ STEPS }
    ensures { IfOk result (λ plan. IsValidPlan plan) }
{
    let counts = Weights::new(&[0; THREADS][..routines.len()]);
    let chosen = Vec::from_slice(rt.alloc(), &[Pickable::CellNo(0)])?;
    Ok(Plan {
        world: WorldSize {
            cells: 2,
            locks: 1,
            frames: 0,
            pages: 0,
            slots: 0,
        },
        routines: Vec::from_slice(rt.alloc(), routines)?,
        selection: Selection::new(chosen),
        walk: Walk::new(rt.alloc(), Rule::Surw, counts)?,
        selected: StrictTape::new(Vec::new(rt.alloc())),
        other: LooseTape::new(Vec::new(rt.alloc())),
        max_steps,
        monitors: Vec::new(rt.alloc()),
    })
}

// The counts of threads 0 and 1.
fn of_two(counts: &Weights) -> [Option<u32>; 2] {
    [
        counts.as_slice().get(0).copied(),
        counts.as_slice().get(1).copied(),
    ]
}

// The counts of threads 0 and 1 in the profile of such a plan, selected and all, or why it has none.
fn profile_of(
    rt: &HostRuntime,
    routines: &[Listed],
    max_steps: u32,
) -> Result<Result<[[Option<u32>; 2]; 2], ProfileFault>, Fail>
    requires few { length routines.now ≤ THREADS }
    requires some { 1 ≤ max_steps }
    requires most { max_steps ≤ STEPS }
{
    let plan = plan(rt, routines, max_steps)?;
    Ok(match profile(rt.alloc(), &plan, 7) {
        Ok(found) => Ok([of_two(&found.selected), of_two(&found.all)]),
        Err(fault) => Err(fault),
    })
}

#[test]
fn each_threads_selected_events_and_all_are_counted(rt: HostRuntime) -> Result<(), Fail> {
    let told = profile_of(&rt, &[ADDS; 2], 6)?;
    assert_eq!(rt; told, Ok([[Some(2); 2], [Some(3); 2]]));
    Ok(())
}

#[test]
fn a_lock_that_is_taken_twice_is_a_deadlock(rt: HostRuntime) -> Result<(), Fail> {
    let told = profile_of(&rt, &[ACQUIRES], 6)?;
    assert_eq!(rt; told, Err(ProfileFault::Deadlock { step: 1 }));
    Ok(())
}

#[test]
fn a_run_of_more_events_than_the_plan_allows_is_at_its_limit(rt: HostRuntime) -> Result<(), Fail> {
    let told = profile_of(&rt, &[ADDS; 2], 5)?;
    assert_eq!(rt; told, Err(ProfileFault::StepLimit));
    Ok(())
}
