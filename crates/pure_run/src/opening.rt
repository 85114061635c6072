ghost use Rattle.std.specs.Prelude.{◌≡◌, ◌↔◌, IsTrue, IfOk};
ghost use Rattle.run_rules.specs.Plan.{IsValidPlan};
ghost use Rattle.pure_run.specs.Opening.{opening_of, IsOpeningOf};

use event_class::Selection;
use routine_kit::Routine;
use run_rules::Plan;
use seed_draws::Draws;
use std::alloc::Global;
use std::marker::Model;
use surw_base::OutOfMemory;
use test_world::{Monitor, WorldSize};
use walk_rules::Walk;

/// What a core is opened with.
#[derive(Drop)]
pub struct Opening<S: Draws, O: Draws> {
    size: WorldSize,
    threads: usize,
    selection: Selection,
    walk: Walk,
    selected: S,
    other: O,
    max_steps: u32,
    monitors: Vec<Monitor>,
}

impl<S: Draws, O: Draws> Model for Opening<S, O> {
    ghost use Rattle.pure_run.specs.Opening.{OpeningState};

    ghost Value = { OpeningState S O };

    ghost view = { λ o. record {
      size = o.size;
      threads = o.threads;
      selection = o.selection;
      walk = o.walk;
      selected = o.selected;
      other = o.other;
      max_steps = o.max_steps;
      monitors = o.monitors.items;
    } };
}

impl<S: Draws, O: Draws> Opening<S, O> {
    // Copies of what a plan has.
    pub(crate) fn of<R: Routine>(
        alloc: Global,
        plan: &Plan<R, S, O>,
    ) -> Result<Opening<S, O>, OutOfMemory>
        ensures { IfOk result (λ opening. opening ≡ opening_of plan.now) }
    {
        Ok(Opening {
            size: plan.world,
            threads: plan.routines.len(),
            selection: plan.selection.copy(alloc)?,
            walk: plan.walk.copy(alloc)?,
            selected: plan.selected.copy(alloc)?,
            other: plan.other.copy(alloc)?,
            max_steps: plan.max_steps,
            monitors: Vec::from_slice(alloc, plan.monitors.as_slice())?,
        })
    }

    pub(crate) fn size(&self) -> &WorldSize
        ensures { result.now ≡ self.now.size }
    {
        &self.size
    }

    pub(crate) fn threads(&self) -> usize
        ensures { result ≡ self.now.threads }
    {
        self.threads
    }

    pub(crate) fn selection(&self) -> &Selection
        ensures { result.now ≡ self.now.selection }
    {
        &self.selection
    }

    pub(crate) fn walk(&self) -> &Walk
        ensures { result.now ≡ self.now.walk }
    {
        &self.walk
    }

    pub(crate) fn selected(&self) -> &S
        ensures { result.now ≡ self.now.selected }
    {
        &self.selected
    }

    pub(crate) fn other(&self) -> &O
        ensures { result.now ≡ self.now.other }
    {
        &self.other
    }

    pub(crate) fn max_steps(&self) -> u32
        ensures { result ≡ self.now.max_steps }
    {
        self.max_steps
    }

    pub(crate) fn monitors(&self) -> &[Monitor]
        ensures { result.now ≡ self.now.monitors }
    {
        self.monitors.as_slice()
    }

    // Its selection and its monitors.
    pub(crate) fn into_parts(self) -> (Selection, Vec<Monitor>)
        ensures selection { result.0 ≡ self.selection }
        ensures monitors { result.1.items ≡ self.monitors }
    {
        (self.selection, self.monitors)
    }

    // Whether a plan has the same, with sources that count as one with these.
    pub(crate) fn is_of<R: Routine>(&self, plan: &Plan<R, S, O>) -> bool
        ensures { IsTrue result ↔ IsOpeningOf S.Draws O.Draws self.now plan.now }
    {
        self.size == plan.world
            && self.threads == plan.routines.len()
            && self.selection.same(&plan.selection)
            && self.walk.same(&plan.walk)
            && self.selected.same(&plan.selected)
            && self.other.same(&plan.other)
            && self.max_steps == plan.max_steps
            && same_monitors(self.monitors.as_slice(), plan.monitors.as_slice())
    }
}

// Whether two lists of monitors are equal.
#[tactic(auto, using(crate::proofs::MonitorsEqual::same_monitors))]
fn same_monitors(one: &[Monitor], other: &[Monitor]) -> bool
    ensures { IsTrue result ↔ (one.now ≡ other.now) }
{
    one == other
}
