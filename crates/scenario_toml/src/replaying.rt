ghost use Rattle.std.specs.Prelude.{◌≡◌, ◌≤◌, IfOk, length};
ghost use Rattle.run_rules.specs.Plan.{IsValidPlan};
ghost use Rattle.scenario_toml.specs.FollowPlan.{no_counts, IsFollowPlanOf};

use crate::Scenario;
use draw_split::Weights;
use routine_kit::{AnyRoutine, copies};
use run_rules::Plan;
use seed_draws::{AnyDraws, LooseTape, StrictTape};
use std::alloc::Global;
use surw_base::{OutOfMemory, THREADS};
use walk_rules::{AskedList, Rule, Walk};

impl Scenario {
    /// The plan of a replay, which asks for the entries of a list: the file's world, routines, monitors and step limit,
    /// and what it selects, whatever its strategy. No count and no draw is looked at. The plan is valid. An error comes
    /// only where memory is refused.
    pub fn follow_plan(
        &self,
        alloc: Global,
        asked: AskedList,
    ) -> Result<Plan<AnyRoutine, AnyDraws, AnyDraws>, OutOfMemory>
        ensures plan { IfOk result (IsFollowPlanOf self.now asked) }
        ensures valid { IfOk result IsValidPlan }
    {
        Ok(Plan {
            world: self.size,
            routines: copies(alloc, self.routines.as_slice())?,
            selection: self.select.copy(alloc)?,
            walk: Walk::new(alloc, Rule::Follow(asked), self.no_counts())?,
            selected: AnyDraws::Strict(StrictTape::new(Vec::new(alloc))),
            other: AnyDraws::Loose(LooseTape::new(Vec::new(alloc))),
            max_steps: self.max_steps,
            monitors: Vec::from_slice(alloc, self.monitors.as_slice())?,
        })
    }

    /// A count of 0 for each thread.
    pub fn no_counts(&self) -> Weights
        ensures { result ≡ no_counts self.now }
    {
        let zeros = [0; THREADS];
        Weights::new(&zeros[..self.routines.len()])
    }
}
