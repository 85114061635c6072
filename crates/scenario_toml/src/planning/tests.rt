ghost use Rattle.std.specs.Prelude.{◌≤◌};
ghost use Rattle.scenario_toml.specs.Chosen.{HasDepth};

use super::*;
use crate::{CountsRule, read_scenario};
use event_class::{Class, Event};
use routine_kit::Routine;
use seed_draws::{DrawFault, Draws, Seeded};
use std::alloc::AllocError;
use std::test::Fail;
use surw_base::{THREADS, ThreadNo};
use test_world::Monitor;
use walk_rules::{Asked, AskedList};

const FILE: &[u8] = b"max_steps = 20
strategy = 'plain'
seed = 7
depth = 5
select = ['cell', 'lock 1']
counts = [2, 3]
monitors = ['expect', 'cell_end 1 9']
world = { cells = 2, locks = 1 }
tapes = { selected = [3], other = [5] }
[[thread]]
kind = 'steps'
lines = ['plus r0 4', 'store 1 r0']
[[thread]]
kind = 'adder'
cell = 1
tries = 2
";

const NOTHING: Choice = Choice {
    strategy: None,
    seed: None,
    depth: None,
};

// The scenario of a file without a fault.
fn taken(alloc: Global, file: &[u8]) -> Result<Scenario, AllocError> {
    read_scenario(alloc, file).map_err(|_| AllocError)
}

// The plan of a scenario under a choice with the counts that it gives, and with zeros where it gives none.
fn planned(
    alloc: Global,
    scenario: &Scenario,
    choice: &Choice,
) -> Result<Plan<AnyRoutine, AnyDraws, AnyDraws>, OutOfMemory>
    requires { HasDepth choice.now }
{
    match scenario.counts() {
        CountsRule::Given(counts) => scenario.plan(alloc, choice, &counts),
        CountsRule::Profile => {
            let none = Weights::new(&[0; THREADS][..scenario.threads()]);
            scenario.plan(alloc, choice, &none)
        }
    }
}

#[test]
fn a_plan_of_all_keys(rt: HostRuntime) -> Result<(), Fail> {
    let scenario = taken(rt.alloc(), FILE)?;
    let mut plan = planned(rt.alloc(), &scenario, &NOTHING)?;
    assert_eq!(rt; scenario.threads(), 2);
    assert_eq!(rt;
        (plan.world.cells, plan.world.locks, plan.max_steps),
        (2, 1, 20)
    );
    assert_eq!(rt;
        plan.selection.as_slice(),
        [Pickable::Of(Class::Cell), Pickable::LockNo(1)].as_slice()
    );
    assert_eq!(rt; plan.walk.counts(), [2, 3].as_slice());
    assert_eq!(rt;
        plan.monitors.as_slice(),
        [Monitor::Expect, Monitor::CellEnd { cell: 1, value: 9 }].as_slice()
    );
    assert_eq!(rt; plan.routines.len(), 2);
    assert_eq!(rt;
        plan.routines[0].announce(),
        Some(Event::Store { c: 1, v: 4 })
    );
    assert_eq!(rt; plan.routines[1].announce(), Some(Event::Load { c: 1 }));
    assert_eq!(rt; plan.selected.below(4), Ok(3));
    assert_eq!(rt; plan.selected.below(4), Err(DrawFault::Short { place: 1 }));
    assert_eq!(rt; plan.other.below(4), Ok(1));
    assert_eq!(rt; plan.other.below(4), Ok(0));
    Ok(())
}

#[test]
fn a_choice_goes_before_the_file(rt: HostRuntime) -> Result<(), Fail> {
    let scenario = taken(rt.alloc(), FILE)?;
    let choice = Choice {
        strategy: Some(Strategy::Urw),
        seed: Some(8),
        depth: Some(16),
    };
    assert_eq!(rt; scenario.strategy(&NOTHING), Strategy::Plain);
    assert_eq!(rt; (scenario.seed(&NOTHING), scenario.depth(&NOTHING)), (7, 5));
    assert_eq!(rt; scenario.strategy(&choice), Strategy::Urw);
    assert_eq!(rt; (scenario.seed(&choice), scenario.depth(&choice)), (8, 16));
    let urw = Choice {
        strategy: Some(Strategy::Urw),
        ..NOTHING
    };
    let plan = planned(rt.alloc(), &scenario, &urw)?;
    assert_eq!(rt; plan.selection.as_slice(), [Pickable::Every].as_slice());
    assert_eq!(rt; plan.walk.counts(), [2, 3].as_slice());
    Ok(())
}

// Whether the draws of a plan are those of a seed: the selected ones from this stream, the others from the second.
fn is_seeded(plan: &Plan<AnyRoutine, AnyDraws, AnyDraws>, seed: u64, stream: u64) -> bool {
    let selected = AnyDraws::Seed(Seeded::new(seed, stream));
    let other = AnyDraws::Seed(Seeded::new(seed, 2));
    plan.selected.same(&selected) && plan.other.same(&other)
}

#[test]
fn what_stands_for_the_keys_that_are_absent(rt: HostRuntime) -> Result<(), Fail> {
    let scenario = taken(rt.alloc(), b"")?;
    assert!(rt; matches!(scenario.counts(), CountsRule::Profile));
    assert_eq!(rt; scenario.strategy(&NOTHING), Strategy::Surw);
    assert_eq!(rt; (scenario.seed(&NOTHING), scenario.depth(&NOTHING)), (0, 3));
    let mut plan = planned(rt.alloc(), &scenario, &NOTHING)?;
    assert_eq!(rt;
        (plan.world.cells, plan.world.locks, plan.max_steps),
        (0, 0, 65_536)
    );
    assert_eq!(rt;
        (plan.world.frames, plan.world.pages, plan.world.slots),
        (0, 0, 0)
    );
    assert_eq!(rt; plan.selection.as_slice(), [Pickable::Every].as_slice());
    assert_eq!(rt; (plan.routines.len(), plan.monitors.len()), (0, 0));
    assert!(rt; is_seeded(&plan, 0, 1));
    Ok(())
}

#[test]
fn two_empty_tapes(rt: HostRuntime) -> Result<(), Fail> {
    let scenario = taken(rt.alloc(), b"[tapes]\n")?;
    let mut plan = planned(rt.alloc(), &scenario, &NOTHING)?;
    assert_eq!(rt; plan.selected.below(1), Err(DrawFault::Short { place: 0 }));
    assert_eq!(rt; plan.other.below(9), Ok(0));
    Ok(())
}

#[test]
fn a_replay_of_the_file_looks_at_neither_its_strategy_nor_its_tapes(
    rt: HostRuntime,
) -> Result<(), Fail> {
    let scenario = taken(rt.alloc(), FILE)?;
    let load = Asked {
        thread: ThreadNo::new(1).unwrap(),
        event: Event::Load { c: 1 },
    };
    let list = AskedList::new(Vec::from_slice(rt.alloc(), &[load])?);
    let mut plan = scenario.follow_plan(rt.alloc(), list)?;
    assert_eq!(rt; plan.walk.asked(0), Some(load));
    assert_eq!(rt; plan.walk.counts(), [0, 0].as_slice());
    assert_eq!(rt; (plan.world.cells, plan.max_steps), (2, 20));
    assert_eq!(rt; plan.routines.len(), 2);
    assert_eq!(rt;
        plan.selection.as_slice(),
        [Pickable::Of(Class::Cell), Pickable::LockNo(1)].as_slice()
    );
    assert_eq!(rt; plan.monitors.len(), 2);
    assert_eq!(rt; plan.selected.below(1), Err(DrawFault::Short { place: 0 }));
    assert_eq!(rt; plan.other.below(9), Ok(0));
    Ok(())
}

#[test]
fn a_chosen_seed_goes_before_the_tapes(rt: HostRuntime) -> Result<(), Fail> {
    let scenario = taken(rt.alloc(), FILE)?;
    let choice = Choice {
        strategy: Some(Strategy::Pct),
        seed: Some(8),
        ..NOTHING
    };
    let plan = planned(rt.alloc(), &scenario, &choice)?;
    assert!(rt; is_seeded(&plan, 8, 3));
    Ok(())
}

// Whether a walk is a new one of PCT with this depth, without threads.
fn is_of_depth(alloc: Global, walk: &Walk, depth: u8) -> Result<bool, OutOfMemory>
    requires { (1 ≤ depth) × (depth ≤ DEPTH) }
{
    let due = Walk::new(alloc, Rule::Pct { depth }, Weights::new(&[]))?;
    Ok(walk.same(&due))
}

#[test]
fn pct_with_the_depth_of_the_file_and_of_the_choice(rt: HostRuntime) -> Result<(), Fail> {
    let file = b"strategy = 'pct'\ndepth = 5\n".as_slice();
    let scenario = taken(rt.alloc(), file)?;
    let plan = planned(rt.alloc(), &scenario, &NOTHING)?;
    assert!(rt; is_of_depth(rt.alloc(), &plan.walk, 5)?);
    let choice = Choice {
        depth: Some(16),
        ..NOTHING
    };
    let plan = planned(rt.alloc(), &scenario, &choice)?;
    assert!(rt; is_of_depth(rt.alloc(), &plan.walk, 16)?);
    Ok(())
}

// How many events a routine announces, of at most ten, where no reply is that of the event before.
fn events(routine: &mut AnyRoutine) -> u64 {
    for reply in 0..10 {
        if routine.announce().is_none() {
            return reply;
        }
        routine.take(reply);
    }
    10
}

#[test]
fn threads_of_each_kind_with_what_stands_for_absent_keys(rt: HostRuntime) -> Result<(), Fail> {
    let file = b"[[thread]]
kind = 'steps'
lines = ['oldest']
[[thread]]
kind = 'adder'
cell = 0
[[thread]]
kind = 'cache_user'
page = 0
expect = 0
[[thread]]
kind = 'flusher'
rounds = 1
[[thread]]
kind = 'log_writer'
page = 0
value = 0
"
        .as_slice();
    let scenario = taken(rt.alloc(), file)?;
    let mut plan = planned(rt.alloc(), &scenario, &NOTHING)?;
    let mut each = Vec::new(rt.alloc());
    for routine in &mut plan.routines {
        each.push(events(routine))?;
    }
    assert_eq!(rt; each.as_slice(), [1, 2, 3, 4, 4].as_slice());
    Ok(())
}
