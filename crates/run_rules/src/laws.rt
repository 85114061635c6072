//! What holds of every plan. A law does nothing when it is called: its contract is the law.

ghost use Rattle.run_rules.specs.Plan.{script_of, IsValidPlan};
ghost use Rattle.run_rules.specs.Replay.{ReplaysRepeat};
ghost use Rattle.run_rules.specs.Run.{OneRun, OneOutcome};
ghost use Rattle.run_rules.specs.Setup.{Script};

use crate::Plan;
use routine_kit::Routine;
use seed_draws::Draws;

/// Exactly one journal is the run of a valid plan.
pub fn one_run<R: Routine, S: Draws, O: Draws>(plan: &Plan<R, S, O>)
    requires { IsValidPlan plan.now }
    ensures { OneRun (script_of R.Routine S.Draws O.Draws plan.now) }
{
    let _ = plan;
}

/// The outcome of a run is one too, of any script: its world, its verdict, the last words, how many draws were bent
/// and where each monitor failed.
pub fn one_outcome()
    ensures { (script : Script) → OneOutcome script }
{}

/// A replay of a legal journal within the step limit repeats it, whatever the replay's selection, counts and draws: its
/// run has the same threads, events and replies, with no entry forced, and leads to the same world and last words. It
/// stops at the end of its list: each thread has ended, the step limit is reached, no event is enabled, or a thread goes
/// on. Where the verdict behind the journal is one of the first three, as it can be where the journal is the run of the plan, the
/// replay has that verdict.
pub fn replay_repeats<R: Routine, S: Draws, O: Draws>(plan: &Plan<R, S, O>)
    ensures { ReplaysRepeat (script_of R.Routine S.Draws O.Draws plan.now) }
{
    let _ = plan;
}
