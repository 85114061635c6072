ghost use Rattle.std.specs.Prelude.{◌≡◌, ◌≤◌, ◌∷◌, [], IfOk, IfErr, length, replicate};
ghost use Rattle.surw_base.specs.declared.limits.TheConstants.{STEPS, THREADS};
ghost use Rattle.event_class.specs.declared.pickable.Pickable.TheVariants.{Every};
ghost use Rattle.seed_draws.specs.SeededSource.{seeded_draws};
ghost use Rattle.seed_draws.specs.TapeSource.{strict_draws};
ghost use Rattle.run_rules.specs.Plan.{script_of, IsValidPlan};
ghost use Rattle.run_rules.specs.Run.{IsRun};
ghost use Rattle.pure_run.specs.Profile.{counts_made, profile_script, IsProfile, IsProfileStop};

use crate::{Entry, Plan, Run, Verdict, run_inline};
use draw_split::Weights;
use event_class::Selection;
use routine_kit::{Routine, copies};
use seed_draws::{Draws, Seeded, StrictTape};
use std::alloc::Global;
use surw_base::{OutOfMemory, THREADS};
use walk_rules::{Rule, Walk};

/// Which stream of a seed the profile's draws are of.
pub const PROFILE_STREAM: u64 = 4;

/// How many events each thread made in the profile's run. There is a count for each thread, and the sums are at most
/// `STEPS`.
#[derive(Debug, Drop)]
pub struct ProfileCounts {
    /// The selected events.
    pub selected: Weights,
    /// All events.
    pub all: Weights,
}

/// Why a profile has no counts.
#[derive(Clone, Copy, Debug, PartialEq, Eq)]
pub enum ProfileFault {
    /// The journal of its run has as many entries as the plan allows.
    StepLimit,
    /// No announced event is enabled.
    Deadlock {
        /// The number of entries of the journal.
        step: u32,
    },
    /// Memory is refused.
    OutOfMemory,
}

impl From<OutOfMemory> for ProfileFault {
    ghost use Rattle.std.specs.Prelude.{◌≡◌};
    ghost use Rattle.pure_run.specs.declared.profiling.ProfileFault.TheVariants.{OutOfMemory};

    ghost from_gives = { λ _ fault. fault ≡ OutOfMemory };

    fn from(_refused: OutOfMemory) -> Self {
        ProfileFault::OutOfMemory
    }
}

/// Counts the events of each thread in one run of a valid plan's routines under the plain rule, with the draws of
/// stream 4 of the seed, whatever the plan's own rule, counts, sources and monitors. `StepLimit` and `Deadlock` come
/// exactly where that run stops so, and `OutOfMemory` only where memory is refused.
pub fn profile<R: Routine, S: Draws, O: Draws>(
    alloc: Global,
    plan: &Plan<R, S, O>,
    seed: u64,
) -> Result<ProfileCounts, ProfileFault>
    requires { IsValidPlan plan.now }
    ensures counts { IfOk result (λ found. IsProfile (script_of R.Routine S.Draws O.Draws plan.now) seed found.selected found.all) }
    ensures stopped { IfErr result (IsProfileStop (script_of R.Routine S.Draws O.Draws plan.now) seed) }
{
    let run = profile_run(alloc, plan, seed)?;
    match run.verdict() {
        Verdict::Ended => Ok(counts_of(&run, &plan.selection)),
        Verdict::StepLimit { .. } => Err(ProfileFault::StepLimit),
        Verdict::Deadlock { step } => Err(ProfileFault::Deadlock { step }),
        _ => unreachable!(),
    }
}

// The run that a profile counts.
fn profile_run<R: Routine, S: Draws, O: Draws>(
    alloc: Global,
    plan: &Plan<R, S, O>,
    seed: u64,
) -> Result<Run, OutOfMemory>
    requires { IsValidPlan plan.now }
    ensures { IfOk result (IsRun (profile_script (script_of R.Routine S.Draws O.Draws plan.now) seed)) }
{
    run_inline(alloc, &profile_plan(alloc, plan, seed)?)
}

// The plan of that run. The plain rule takes no selected draw, so those are an empty tape's.
fn profile_plan<R: Routine, S: Draws, O: Draws>(
    alloc: Global,
    plan: &Plan<R, S, O>,
    seed: u64,
) -> Result<Plan<R, StrictTape, Seeded>, OutOfMemory>
    requires { IsValidPlan plan.now }
    ensures valid { IfOk result (λ profiled. IsValidPlan profiled) }
    ensures script { IfOk result (λ profiled. script_of R.Routine strict_draws seeded_draws profiled
        ≡ profile_script (script_of R.Routine S.Draws O.Draws plan.now) seed) }
{
    Ok(Plan {
        world: plan.world,
        routines: copies(alloc, plan.routines.as_slice())?,
        selection: plan.selection.copy(alloc)?,
        walk: Walk::new(alloc, Rule::Plain, no_counts(plan.routines.len()))?,
        selected: StrictTape::new(Vec::new(alloc)),
        other: Seeded::new(seed, PROFILE_STREAM),
        max_steps: plan.max_steps,
        monitors: Vec::new(alloc),
    })
}

// A count of 0 for each thread.
fn no_counts(threads: usize) -> Weights
    requires { threads ≤ THREADS }
    ensures { result ≡ replicate threads 0 }
{
    let zeros = [0; THREADS];
    Weights::new(&zeros[..threads])
}

// How many selected events each thread of a run made, and how many events.
fn counts_of(run: &Run, selection: &Selection) -> ProfileCounts
    ensures selected { result.selected ≡ counts_made selection.now run.now.journal (length run.now.words) }
    ensures all { result.all ≡ counts_made (Every ∷ []) run.now.journal (length run.now.words) }
{
    let threads = run.threads();
    let (selected, all) = count_events(run.journal(), selection);
    ProfileCounts {
        selected: Weights::new(&selected[..threads]),
        all: Weights::new(&all[..threads]),
    }
}

// How many selected events each thread made, and how many events, for as many threads as there can be.
fn count_events(journal: &[Entry], selection: &Selection) -> ([u32; THREADS], [u32; THREADS])
    requires { length journal.now ≤ STEPS }
    ensures selected { result.0 ≡ counts_made selection.now journal.now THREADS }
    ensures all { result.1 ≡ counts_made (Every ∷ []) journal.now THREADS }
{
    let mut selected = [0; THREADS];
    let mut all = [0; THREADS];
    for entry in journal {
        let thread = usize::from(entry.thread.get());
        if selection.has(&entry.event) {
            selected[thread] += 1;
        }
        all[thread] += 1;
    }
    (selected, all)
}

#[cfg(test)]
mod tests;
