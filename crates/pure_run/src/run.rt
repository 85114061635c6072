ghost use Rattle.std.specs.Prelude.{◌≡◌, ◌<◌, ◌≤◌, All, is_some, Some, length, map, slice_get, slice_index_or, None};
ghost use Rattle.std.specs.List.{list_any};
ghost use Rattle.surw_base.specs.declared.limits.TheConstants.{MONITORS, THREADS, STEPS};
ghost use Rattle.event_class.specs.Selection.{has};
ghost use Rattle.run_rules.specs.declared.entry.Entry.{Entry};
ghost use Rattle.run_rules.specs.declared.verdict.Verdict.TheVariants.{Ended};
ghost use Rattle.test_world.specs.Monitor.{CanWatch};
ghost use Rattle.pure_run.specs.Run.{at_end};

use arrayvec::ArrayVec;
use event_class::{Event, Selection};
use run_rules::{Entry, Verdict};
use std::marker::Model;
use surw_base::{THREADS, ThreadNo};
use test_world::{Monitor, World};

/// What a run was. A contract sees a record of its parts.
#[derive(Drop)]
pub struct Run {
    journal: Vec<Entry>,
    world: World,
    verdict: Verdict,
    words: ArrayVec<Option<Event>, THREADS>,
    bent: u64,
    selection: Selection,
    monitors: Vec<Monitor>,
    failed: Vec<Option<u32>>,
}

impl Model for Run {
    ghost use Rattle.run_rules.specs.Run.{Outcome};
    ghost use Rattle.pure_run.specs.Run.{IsRunInside};

    ghost Value = { Outcome };

    ghost view = { λ r. record {
      journal = r.journal.items;
      world = r.world;
      verdict = r.verdict;
      words = r.words.items;
      bent = r.bent;
      selection = r.selection;
      monitors = r.monitors.items;
      failed = r.failed.items;
    } };

    ghost invariant = { λ r. IsRunInside r.journal.items r.monitors.items r.failed.items };
}

impl Run {
    // The run with these parts; a monitor of a cell is looked at now.
    pub(crate) fn new(
        journal: Vec<Entry>,
        world: World,
        verdict: Verdict,
        words: ArrayVec<Option<Event>, THREADS>,
        bent: u64,
        selection: Selection,
        monitors: Vec<Monitor>,
        mut failed: Vec<Option<u32>>,
    ) -> Run
        requires short { length journal.items ≤ STEPS }
        requires few { length monitors.items ≤ MONITORS }
        requires each { length failed.items ≡ length monitors.items }
        requires watched { All (CanWatch world.size) monitors.items }
        ensures { result ≡ record {
          journal = journal.items;
          world = world;
          verdict = verdict;
          words = words.items;
          bent = bent;
          selection = selection;
          monitors = monitors.items;
          failed = at_end world (length journal.items) verdict failed.items monitors.items;
        } }
    {
        let steps = journal.len() as u32;
        if let Verdict::Ended = verdict {
            watch_cells(&mut failed, &world, steps, monitors.as_slice());
        }
        Run {
            journal,
            world,
            verdict,
            words,
            bent,
            selection,
            monitors,
            failed,
        }
    }

    /// The steps of the run in order, at most `STEPS`.
    pub fn journal(&self) -> &[Entry]
        ensures same { result.now ≡ self.now.journal }
        ensures most { length self.now.journal ≤ STEPS }
    {
        self.journal.as_slice()
    }

    /// The world at the end.
    pub fn world(&self) -> &World
        ensures { result.now ≡ self.now.world }
    {
        &self.world
    }

    /// Why the run stopped.
    pub fn verdict(&self) -> Verdict
        ensures { result ≡ self.now.verdict }
    {
        self.verdict
    }

    /// How many draws of the two sources were bent. It stays at the greatest number once it is there.
    pub fn bent(&self) -> u64
        ensures { result ≡ self.now.bent }
    {
        self.bent
    }

    /// How many threads the run had, at most `THREADS`.
    pub fn threads(&self) -> usize
        ensures number { result ≡ length self.now.words }
        ensures most { result ≤ THREADS }
    {
        self.words.len()
    }

    /// The event that a thread announces at the end. None where it announces nothing.
    pub fn next(&self, thread: ThreadNo) -> Option<Event>
        ensures { result ≡ slice_index_or self.now.words thread None }
    {
        self.words.get(usize::from(thread.get())).copied().flatten()
    }

    /// Whether the event of the entry at a place was selected.
    pub fn selected(&self, k: u32) -> bool
        requires { k < length self.now.journal }
        ensures { (entry : Entry) → slice_get self.now.journal k ≡ Some entry → result ≡ has self.now.selection entry.event }
    {
        self.selection.has(&self.journal[k as usize].event)
    }

    /// How many monitors the run had, at most `MONITORS`.
    pub fn monitors(&self) -> usize
        ensures number { result ≡ length self.now.monitors }
        ensures most { result ≤ MONITORS }
    {
        self.monitors.len()
    }

    /// The monitor of a number.
    pub fn monitor(&self, i: usize) -> Monitor
        requires { i < length self.now.monitors }
        ensures { slice_get self.now.monitors i ≡ Some result }
    {
        self.monitors[i]
    }

    /// Whether a monitor fails.
    pub fn any_failed(&self) -> bool
        ensures { result ≡ list_any is_some self.now.failed }
    {
        self.failed.iter().any(|place| place.is_some())
    }

    /// Where a monitor fails: one of a cell at the end, where each thread has ended; any other at the least number
    /// of entries after which it fails. None where it doesn't fail.
    pub fn failed(&self, i: usize) -> Option<u32>
        requires { i < length self.now.monitors }
        ensures { slice_get self.now.failed i ≡ Some result }
    {
        self.failed[i]
    }
}

// Looks at each monitor of a cell at the end of a run in which each thread has ended.
fn watch_cells(failed: &mut Vec<Option<u32>>, world: &World, steps: u32, monitors: &[Monitor])
    requires each { length failed.old.items ≡ length monitors.now }
    requires watched { All (CanWatch world.now.size) monitors.now }
    ensures { failed.new.items ≡ at_end world.now steps Ended failed.old.items monitors.now }
{
    for (i, monitor) in monitors.iter().enumerate() {
        if let Monitor::CellEnd { .. } = monitor {
            failed[i] = world.failing(monitor).then_some(steps);
        }
    }
}
