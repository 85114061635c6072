ghost use Rattle.std.specs.Prelude.{◌≡◌, ◌≤◌, IfOk, false, length, sum, vec_len};
ghost use Rattle.surw_base.specs.declared.limits.TheConstants.{STEPS, THREADS};
ghost use Rattle.run_rules.specs.Plan.{IsValidPlan};
ghost use Rattle.gate_core.specs.Gate.{AreAllPasses};

mod counting;
mod meeting;

use super::*;
use counting::{Counting, InTurn};
use draw_split::Weights;
use event_class::{Pickable, Selection};
use meeting::Meeting;
use pure_run::{Core, Plan, Run, run_inline, say_first_words};
use routine_kit::{Adder, Routine};
use seed_draws::{LooseTape, StrictTape};
use std::process::Abort;
use std::sync::Wait;
use std::sync::atomic::{AtomicU64, Ordering};
use std::test::Fail;
use surw_base::{STEPS, THREADS};
use test_world::{Monitor, WorldSize};
use walk_rules::{Rule, Walk};

// A world of one cell.
const SIZE: WorldSize = WorldSize {
    cells: 1,
    locks: 0,
    frames: 0,
    pages: 0,
    slots: 0,
};

// A plan of these routines with these counts, by these draws. Every event is selected, and it is watched whether cell 0
// is 2 at the end.
fn plan<R: Routine>(
    rt: &HostRuntime,
    routines: Vec<R>,
    counts: &[u32],
    draws: &[u64],
) -> Result<Plan<R, StrictTape, LooseTape>, Fail>
    requires threads { length counts.now ≤ THREADS }
    requires counted { length counts.now ≡ vec_len routines }
    requires few { sum counts.now ≤ STEPS }
    requires short { length draws.now ≤ STEPS }
    ensures { IfOk result (λ plan. IsValidPlan plan) }
{
    let every = Vec::from_slice(rt.alloc(), &[Pickable::Every])?;
    let draws = Vec::from_slice(rt.alloc(), draws)?;
    let watched = Monitor::CellEnd { cell: 0, value: 2 };
    let monitors = Vec::from_slice(rt.alloc(), &[watched])?;
    Ok(Plan {
        world: SIZE,
        routines,
        selection: Selection::new(every),
        walk: Walk::new(rt.alloc(), Rule::Urw, Weights::new(counts))?,
        selected: StrictTape::new(draws),
        other: LooseTape::new(Vec::new(rt.alloc())),
        max_steps: 100,
        monitors,
    })
}

// So many adders of one try.
fn adders(rt: &HostRuntime, count: usize) -> Result<Vec<Adder>, Fail>
    ensures { IfOk result (λ adders. vec_len adders ≡ count) }
{
    let mut adders = Vec::new(rt.alloc());
    for _adder in 0..count {
        adders.push(Adder::new(0, 1))?;
    }
    Ok(adders)
}

// The first adder loads, the other loads, the first swaps, and the other's swap fails.
const LOST_UPDATE: [u64; 4] = [0, 1, 0, 0];

// Whether two runs tell the same.
fn are_equal(one: &Run, other: &Run) -> bool {
    one.journal() == other.journal() && one.verdict() == other.verdict()
}

#[test]
fn workers_run_beside_each_other(rt: HostRuntime) -> Result<(), Fail> {
    let stage = Meeting::new();
    let plan = plan(&rt, adders(&rt, 2)?, &[2, 2], &LOST_UPDATE)?;
    let run = run_gated(&rt, rt.alloc(), &plan, &stage)?;
    assert!(rt; are_equal(&run, &run_inline(rt.alloc(), &plan)?));
    assert_eq!(rt; run.journal().len(), 4);
    assert_eq!(rt; stage.seen(), 4);
    Ok(())
}

#[test]
fn each_reply_is_taken_in_its_turn(rt: HostRuntime) -> Result<(), Fail> {
    let taken = AtomicU64::new(0);
    let stage = InTurn::new(&taken);
    let mut routines = Vec::new(rt.alloc());
    routines.push(Counting::new(Adder::new(0, 1), &taken))?;
    routines.push(Counting::new(Adder::new(0, 1), &taken))?;
    let plan = plan(&rt, routines, &[2, 2], &LOST_UPDATE)?;
    run_gated(&rt, rt.alloc(), &plan, &stage)?;
    assert_eq!(rt; stage.wrong(), 0);
    assert_eq!(rt; taken.load(Ordering::SeqCst), 4);
    Ok(())
}

#[test]
fn sixteen_threads(rt: HostRuntime) -> Result<(), Fail> {
    let draws = [
        31, 7, 20, 3, 27, 0, 25, 11, 13, 22, 5, 20, 1, 18, 9, 2, 15, 4, 0, 12, 6, 3, 8, 1, 7, 0, 5,
        2, 3, 1, 1, 0,
    ];
    let plan = plan(&rt, adders(&rt, THREADS)?, &[2; THREADS], &draws)?;
    let run = run_gated(&rt, rt.alloc(), &plan, &Bare)?;
    assert!(rt; are_equal(&run, &run_inline(rt.alloc(), &plan)?));
    assert_eq!(rt; run.journal().len(), 32);
    Ok(())
}

#[test]
fn no_threads(rt: HostRuntime) -> Result<(), Fail> {
    let plan = plan(&rt, adders(&rt, 0)?, &[], &[])?;
    let run = run_gated(&rt, rt.alloc(), &plan, &Bare)?;
    assert_eq!(rt; run.journal().len(), 0);
    Ok(())
}

// A gate before the core of a plan, at which each thread has said its first word.
fn gate_of(
    rt: &HostRuntime,
    plan: &Plan<Adder, StrictTape, LooseTape>,
) -> Result<Gate<StrictTape, LooseTape, u64>, Fail>
    requires { IsValidPlan plan.now }
    ensures { IfOk result (λ gate. gate.given ≡ false) }
{
    let mut core = Core::open(rt.alloc(), plan)?;
    say_first_words(&mut core, plan.routines.as_slice());
    Ok(Gate::new(rt.alloc(), core)?)
}

// Whether each pass is told this note at a gate that is closed.
fn each_is_told<W: Wait>(
    rt: &W,
    gate: &Gate<StrictTape, LooseTape, u64>,
    passes: Vec<Pass<StrictTape, LooseTape>>,
    note: u64,
) -> bool
    requires { AreAllPasses gate.now passes.items }
{
    for pass in passes {
        match gate.wait_grant(rt, pass) {
            Waited::Closed(_, told) => {
                if *told != note {
                    return false;
                }
            }
            Waited::Over(_) => return false,
            Waited::Mine(mut lent) => {
                lent.perform();
                lent.hand_on(None);
                return false;
            }
        }
    }
    true
}

#[test]
fn a_closed_gate_tells_its_first_note(rt: HostRuntime) -> Result<(), Fail> {
    let plan = plan(&rt, adders(&rt, 2)?, &[2, 2], &LOST_UPDATE)?;
    let mut gate = gate_of(&rt, &plan)?;
    let passes = gate.passes(rt.alloc())?;
    assert_eq!(rt; passes.len(), 2);
    assert_eq!(rt; gate.passes(rt.alloc())?.len(), 0);
    gate.stop(&rt, 7);
    gate.stop(&rt, 8);
    assert!(rt; each_is_told(&rt, &gate, passes, 7));
    Ok(())
}
