ghost use Rattle.std.specs.Prelude.{◌≡◌, ◌≤◌, true, map, IfOk, IfSome, vec_len, vec_capacity, length};
ghost use Rattle.turn_table.specs.Seat.{RestsAgain, SeatsFrom};
ghost use Rattle.gate_core.specs.Gate.{AllRestAgain, IsPassAt};

use crate::worker::{HandsBack, Worked, work};
use crate::{Log, Pass, Stage, Turnstile};
use routine_kit::Routine;
use seed_draws::Draws;
use std::alloc::Global;
use std::snapshot::Snapshot;
use std::sync::Wait;
use std::thread::{self, PromisedHandle, Scope, Threads};
use surw_base::OutOfMemory;

/// What a worker begins with: the turnstile, a pass of its table, and a log.
#[derive(Drop)]
pub struct Job<'g, R: Routine, S: Draws, O: Draws> {
    turnstile: &'g Turnstile<S, O, ()>,
    /// Its pass.
    pub pass: Pass<S, O>,
    /// Its log.
    pub log: Log<R>,
    ghost of_table: { IsPassAt turnstile.now pass },
}

type Handle<R, S, O> = PromisedHandle<Worked<R, S, O>, HandsBack<R, S, O>>;

/// The workers of a run, before they are started, with room for their handles and for what they hand back.
#[derive(Drop)]
pub struct Crew<'g, R: Routine, S: Draws, O: Draws> {
    /// What each begins with.
    pub jobs: Vec<Job<'g, R, S, O>>,
    handles: Vec<Handle<R, S, O>>,
    passes: Vec<Pass<S, O>>,
    logs: Vec<Log<R>>,
    ghost empty: { (vec_len handles ≡ 0) × (vec_len passes ≡ 0) × (vec_len logs ≡ 0) },
    ghost room: { (vec_len jobs ≤ vec_capacity handles) × (vec_len jobs ≤ vec_capacity passes) × (vec_len jobs ≤ vec_capacity logs) },
}

/// What the workers handed back, in the order of their threads.
#[derive(Drop)]
pub struct Ended<R: Routine, S: Draws, O: Draws> {
    /// Their passes.
    pub passes: Vec<Pass<S, O>>,
    /// Their logs.
    pub logs: Vec<Log<R>>,
}

impl<'g, R: Routine, S: Draws, O: Draws> Crew<'g, R, S, O> {
    /// A worker for each routine, with the passes of a gate and a log of so much room. An error comes only where memory
    /// is refused.
    pub(crate) fn new(
        alloc: Global,
        turnstile: &'g Turnstile<S, O, ()>,
        passes: Vec<Pass<S, O>>,
        routines: &[R],
        room: u32,
    ) -> Result<Crew<'g, R, S, O>, OutOfMemory>
        requires passes { SeatsFrom turnstile.now 0 passes.items }
        requires threads { vec_len passes ≡ length routines.now }
        ensures passes { IfOk result (λ crew. map (λ job. job.pass) crew.jobs.items ≡ passes.items) }
        ensures logs { IfOk result (λ crew. map (λ job. job.log.start) crew.jobs.items ≡ routines.now) }
    {
        let jobs = jobs_of(alloc, turnstile, passes, routines, room)?;
        let handles = Vec::with_capacity(alloc, jobs.len())?;
        let passes = Vec::with_capacity(alloc, jobs.len())?;
        let logs = Vec::with_capacity(alloc, jobs.len())?;
        Ok(Crew {
            jobs,
            handles,
            passes,
            logs,
        })
    }
}

// A job for each routine, with the pass of its thread.
fn jobs_of<'g, R: Routine, S: Draws, O: Draws>(
    alloc: Global,
    turnstile: &'g Turnstile<S, O, ()>,
    passes: Vec<Pass<S, O>>,
    routines: &[R],
    room: u32,
) -> Result<Vec<Job<'g, R, S, O>>, OutOfMemory>
    requires passes { SeatsFrom turnstile.now 0 passes.items }
    requires threads { vec_len passes ≡ length routines.now }
    ensures passes { IfOk result (λ jobs. map (λ job. job.pass) jobs.items ≡ passes.items) }
    ensures logs { IfOk result (λ jobs. map (λ job. job.log.start) jobs.items ≡ routines.now) }
{
    let mut jobs = Vec::new(alloc);
    for pass in passes {
        let routine = &routines[usize::from(pass.thread().get())];
        let log = Log::new(alloc, routine, room)?;
        jobs.push(Job {
            turnstile,
            pass,
            log,
        })?;
    }
    Ok(jobs)
}

/// Runs the workers in threads of their own, and joins them. None where one couldn't be started: then the gate is
/// closed, and those that were started are joined.
pub(crate) fn run_crew<
    R: Routine + Send,
    S: Draws + Send,
    O: Draws + Send,
    G: Stage,
    H: Threads + Wait + Sync,
>(
    rt: &H,
    turnstile: &Turnstile<S, O, ()>,
    stage: &G,
    crew: Crew<'_, R, S, O>,
) -> Option<Ended<R, S, O>>
    ensures { IfSome result (λ ended. AllRestAgain (map (λ job. job.pass) crew.entry.jobs.items) ended.passes.items
        × (map (λ log. log.start) ended.logs.items ≡ map (λ job. job.log.start) crew.entry.jobs.items)) }
{
    thread::scope(
        thread::scope_env(),
        rt,
        move |scope| -> Option<Ended<R, S, O>>
            ensures { IfSome result (λ ended. AllRestAgain (map (λ job. job.pass) crew.entry.jobs.items) ended.passes.items
                × (map (λ log. log.start) ended.logs.items ≡ map (λ job. job.log.start) crew.entry.jobs.items)) }
        { run_in(scope, rt, turnstile, stage, crew) },
    )
}

// Starts the workers in this scope, and joins them. None where one couldn't be started.
fn run_in<
    's,
    E,
    R: Routine + Send + 's,
    S: Draws + Send + 's,
    O: Draws + Send + 's,
    G: Stage + 's,
    H: Threads + Wait + Sync + 's,
>(
    scope: &Scope<'s, E>,
    rt: &'s H,
    turnstile: &'s Turnstile<S, O, ()>,
    stage: &'s G,
    crew: Crew<'s, R, S, O>,
) -> Option<Ended<R, S, O>>
    ensures { IfSome result (λ ended. AllRestAgain (map (λ job. job.pass) crew.entry.jobs.items) ended.passes.items
        × (map (λ log. log.start) ended.logs.items ≡ map (λ job. job.log.start) crew.entry.jobs.items)) }
{
    let Crew {
        jobs,
        handles,
        passes,
        logs,
    } = crew;
    let (handles, all) = start_all(scope, rt, stage, jobs, handles);
    if !all {
        turnstile.stop(rt, ());
    }
    let ended = join_all(rt, handles, passes, logs);
    if all { Some(ended) } else { None }
}

// Starts a worker for each job, until one can't be started; whether all were.
fn start_all<
    's,
    E,
    R: Routine + Send + 's,
    S: Draws + Send + 's,
    O: Draws + Send + 's,
    G: Stage + 's,
    W: Wait + Sync + 's,
>(
    scope: &Scope<'s, E>,
    rt: &'s W,
    stage: &'s G,
    jobs: Vec<Job<'s, R, S, O>>,
    mut handles: Vec<Handle<R, S, O>>,
) -> (Vec<Handle<R, S, O>>, bool)
    requires room { (vec_len handles ≡ 0) × (vec_len jobs ≤ vec_capacity handles) }
    ensures few { vec_len result.0 ≤ vec_len jobs.entry }
    ensures passes { result.1 ≡ true → map (λ handle. handle.promise.pass.value) result.0.items ≡ map (λ job. job.pass) jobs.entry.items }
    ensures logs { result.1 ≡ true → map (λ handle. handle.promise.log.value.start) result.0.items ≡ map (λ job. job.log.start) jobs.entry.items }
{
    for job in jobs {
        let Job {
            turnstile,
            pass,
            log,
        } = job;
        let promise = HandsBack {
            log: Snapshot::of(&log),
            pass: Snapshot::of(&pass),
        };
        let started = scope.spawn_with(
            promise,
            move || -> Worked<R, S, O>
                requires { IsPassAt turnstile.now pass }
                ensures { (result.log.start ≡ log.start) × RestsAgain pass result.pass }
            { work(rt, turnstile, stage, pass, log) },
        );
        let Ok(handle) = started else {
            return (handles, false);
        };
        handles.push_reserved(handle);
    }
    (handles, true)
}

// Joins the workers, and takes what they hand back.
fn join_all<R: Routine, S: Draws, O: Draws, H: Threads>(
    rt: &H,
    handles: Vec<Handle<R, S, O>>,
    mut passes: Vec<Pass<S, O>>,
    mut logs: Vec<Log<R>>,
) -> Ended<R, S, O>
    requires passes { (vec_len passes ≡ 0) × (vec_len handles ≤ vec_capacity passes) }
    requires logs { (vec_len logs ≡ 0) × (vec_len handles ≤ vec_capacity logs) }
    ensures passes { AllRestAgain (map (λ handle. handle.promise.pass.value) handles.items) result.passes.items }
    ensures logs { map (λ log. log.start) result.logs.items ≡ map (λ handle. handle.promise.log.value.start) handles.items }
{
    for handle in handles {
        let Worked { log, pass } = handle.join(rt);
        passes.push_reserved(pass);
        logs.push_reserved(log);
    }
    Ended { passes, logs }
}
