ghost use Rattle.std.specs.Prelude.{◌≡◌, [], IfOk, IfSome, false, map};
ghost use Rattle.std.specs.List.{list_any};
ghost use Rattle.pure_run.specs.Core.{is_due};
ghost use Rattle.run_rules.specs.Plan.{script_of, IsValidPlan};
ghost use Rattle.run_rules.specs.Run.{IsRun};
ghost use Rattle.selected_order.specs.KeepsOrder.{KeepsOrder};

use crate::crew::{Crew, run_crew};
use crate::own_logs::all_own;
use crate::{Gate, Log, Stage};
use pure_run::{Core, Plan, Run, run_inline, say_first_words};
use routine_kit::Routine;
use seed_draws::Draws;
use std::alloc::Global;
use std::sync::Wait;
use std::thread::{Threads, available_parallelism};
use surw_base::OutOfMemory;

/// Makes the run of a valid plan, with a thread of its own for each routine. It takes all memory before the first
/// step, and waits until each thread has ended. Whatever the threads' timing, the run is the plan's: where a thread
/// couldn't be started, or what the threads made isn't that run, it is made on the caller's own thread. An error comes
/// only where memory is refused.
pub fn run_gated<
    H: Threads + Wait + Sync,
    R: Routine + Send,
    S: Draws + Send,
    O: Draws + Send,
    G: Stage,
>(rt: &H, alloc: Global, plan: &Plan<R, S, O>, stage: &G) -> Result<Run, OutOfMemory>
    requires { IsValidPlan plan.now }
    ensures run { IfOk result (IsRun (script_of R.Routine S.Draws O.Draws plan.now)) }
    ensures order { IfOk result (KeepsOrder (script_of R.Routine S.Draws O.Draws plan.now)) }
{
    match run_of_threads(rt, alloc, plan, stage)? {
        Some(run) => Ok(run),
        None => run_inline(alloc, plan),
    }
}

// The run as its threads made it. None where one couldn't be started, or what they made isn't the plan's run.
fn run_of_threads<
    H: Threads + Wait + Sync,
    R: Routine + Send,
    S: Draws + Send,
    O: Draws + Send,
    G: Stage,
>(rt: &H, alloc: Global, plan: &Plan<R, S, O>, stage: &G) -> Result<Option<Run>, OutOfMemory>
    requires { IsValidPlan plan.now }
    ensures run { IfOk result (λ some. IfSome some (IsRun (script_of R.Routine S.Draws O.Draws plan.now))) }
    ensures order { IfOk result (λ some. IfSome some (KeepsOrder (script_of R.Routine S.Draws O.Draws plan.now))) }
{
    let mut core = Core::open(alloc, plan)?;
    let routines = plan.routines.as_slice();
    say_first_words(&mut core, routines);
    let mut gate = gate_of(rt, alloc, core)?;
    let passes = gate.passes(alloc)?;
    let turnstile = gate.turnstile();
    let crew = Crew::new(alloc, turnstile, passes, routines, plan.max_steps)?;
    let Some(ended) = run_crew(rt, turnstile, stage, crew) else {
        return Ok(None);
    };
    let core = gate.into_core(ended.passes);
    Ok(run_of(core, plan, &ended.logs))
}

// A gate at which a thread peeks only where all can run side by side: the processor that it peeks on is wanted else.
fn gate_of<H: Threads, S: Draws, O: Draws>(
    rt: &H,
    alloc: Global,
    core: Core<S, O>,
) -> Result<Gate<S, O, ()>, OutOfMemory>
    requires said { list_any is_due core.words ≡ false }
    requires first { core.journal ≡ [] }
    ensures threads { IfOk result (λ gate. gate.threads ≡ core.opening.threads) }
    ensures given { IfOk result (λ gate. gate.given ≡ false) }
{
    let threads = core.threads();
    let mut gate = Gate::new(alloc, core)?;
    if !has_processors(rt, threads) {
        gate.set_peeks(0);
    }
    Ok(gate)
}

// Whether there is a processor for each of so many threads, as far as the system tells.
fn has_processors<H: Threads>(rt: &H, threads: usize) -> bool {
    match available_parallelism(rt) {
        Ok(count) => count.get() >= threads,
        Err(_) => true,
    }
}

// The run of a core, where it is the plan's: the core has a verdict, was opened as the plan, and agrees with each log.
fn run_of<R: Routine, S: Draws, O: Draws>(
    core: Core<S, O>,
    plan: &Plan<R, S, O>,
    logs: &Vec<Log<R>>,
) -> Option<Run>
    requires valid { IsValidPlan plan.now }
    requires logs { map (λ log. log.start) logs.now.items ≡ plan.now.routines.items }
    ensures run { IfSome result (IsRun (script_of R.Routine S.Draws O.Draws plan.now)) }
    ensures order { IfSome result (KeepsOrder (script_of R.Routine S.Draws O.Draws plan.now)) }
{
    if !core.opened_as(plan) || core.verdict().is_none() || core.threads() != logs.len() {
        return None;
    }
    let run = core.finish();
    if all_own(&run, logs.as_slice()) {
        Some(run)
    } else {
        None
    }
}
