ghost use Rattle.std.specs.Prelude.{◌≡◌, ◌+◌, ◌≤◌, IfOk, IsSome, Some, length, map, replicate};
ghost use Rattle.surw_base.specs.declared.limits.TheConstants.{THREADS};
ghost use Rattle.run_rules.specs.declared.plan.Plan.{Plan};
ghost use Rattle.run_rules.specs.Plan.{script_of, IsValidPlan};
ghost use Rattle.run_rules.specs.Run.{IsRun};
ghost use Rattle.selected_order.specs.KeepsOrder.{KeepsOrder};
ghost use Rattle.pure_run.specs.declared.word.Word.TheVariants.{Due};
ghost use Rattle.pure_run.specs.Core.{granted_of, setup_by, verdict_of};
ghost use Rattle.pure_run.specs.Inline.{IsInline, said_by};

use crate::{Core, Plan, Run};
use routine_kit::{Routine, copies};
use seed_draws::Draws;
use std::alloc::Global;
use surw_base::{OutOfMemory, ThreadNo};

/// Makes the run of a valid plan on the caller's own thread. It takes all memory before the first step; an error
/// comes only where memory is refused.
pub fn run_inline<R: Routine, S: Draws, O: Draws>(
    alloc: Global,
    plan: &Plan<R, S, O>,
) -> Result<Run, OutOfMemory>
    requires { IsValidPlan plan.now }
    ensures run { IfOk result (IsRun (script_of R.Routine S.Draws O.Draws plan.now)) }
    ensures order { IfOk result (KeepsOrder (script_of R.Routine S.Draws O.Draws plan.now)) }
{
    let mut core = Core::open(alloc, plan)?;
    let mut routines = copies(alloc, plan.routines.as_slice())?;
    say_first_words(&mut core, routines.as_slice());
    make_steps(plan, &mut core, &mut routines);
    Ok(core.finish())
}

/// Says the first word of each thread of a core that was just opened: what its routine announces.
pub fn say_first_words<R: Routine, S: Draws, O: Draws>(core: &mut Core<S, O>, routines: &[R])
    requires few { length routines.now ≤ THREADS }
    requires due { core.old.words ≡ replicate (length routines.now) Due }
    ensures { core.new ≡ record core.old { words = said_by R.Routine routines.now } }
{
    for (thread, routine) in routines.iter().enumerate() {
        core.say(ThreadNo::new(thread as u8).unwrap(), routine.announce());
    }
}

// Makes steps until there is a verdict, which is there after as many as the plan allows.
fn make_steps<R: Routine, S: Draws, O: Draws>(
    plan: &Plan<R, S, O>,
    core: &mut Core<S, O>,
    routines: &mut Vec<R>,
)
    requires valid { IsValidPlan plan.now }
    requires inline { IsInline R.Routine S.Draws O.Draws plan.now core.old routines.old.items }
    requires first { length core.old.journal ≡ 0 }
    ensures inline { IsInline R.Routine S.Draws O.Draws plan.now core.new routines.new.items }
    ensures stops { IsSome (verdict_of (setup_by S.Draws O.Draws core.new) core.new) }
{
    for _step in 0..plan.max_steps {
        let Some(thread) = core.granted() else {
            return;
        };
        make_step(core, routines, thread);
    }
}

// Makes the step of the thread that is granted it, and says what its routine announces after the reply.
fn make_step<R: Routine, S: Draws, O: Draws>(
    core: &mut Core<S, O>,
    routines: &mut Vec<R>,
    thread: ThreadNo,
)
    requires said { core.old.words ≡ said_by R.Routine routines.old.items }
    requires granted { granted_of (setup_by S.Draws O.Draws core.old) core.old ≡ Some thread }
    ensures inline { (plan : Plan R S O) → IsInline R.Routine S.Draws O.Draws plan core.old routines.old.items
        → IsInline R.Routine S.Draws O.Draws plan core.new routines.new.items }
    ensures longer { length core.new.journal ≡ length core.old.journal + 1 }
{
    let reply = core.perform(thread);
    let routine = &mut routines[usize::from(thread.get())];
    routine.take(reply);
    core.say(thread, routine.announce());
}

#[cfg(test)]
mod tests;
