ghost use Rattle.std.specs.Prelude.{◌≡◌, ◌≤◌, IfOk, length};
ghost use Rattle.routine_kit.specs.declared.any_routine.AnyRoutine.{AnyRoutine};
ghost use Rattle.run_rules.specs.Plan.{IsValidPlan};
ghost use Rattle.walk_rules.specs.Walk.{IsDepth};
ghost use Rattle.scenario_toml.specs.Chosen.{HasDepth};
ghost use Rattle.scenario_toml.specs.Plan.{rule_by, selection_by, IsPlanOf};

use crate::{Choice, Scenario, Strategy};
use draw_split::Weights;
use event_class::{Pickable, Selection};
use routine_kit::{AnyRoutine, copies};
use run_rules::Plan;
use seed_draws::AnyDraws;
use std::alloc::Global;
use surw_base::{DEPTH, OutOfMemory};
use walk_rules::{Rule, Walk};

impl Scenario {
    /// The plan of a run under a choice, with a count for each thread. A depth that is chosen is from 1 to `DEPTH`.
    /// Where the file has tapes and no seed is chosen, the selected draws are those of its tape `selected`, the other
    /// draws those of its tape `other`. Else they are drawn from the seed: the selected draws from its first stream,
    /// under PCT from its third, and the other draws from its second. Under URW every event is selected, else what the
    /// file says. The plan is valid. An error comes only where memory is refused.
    pub fn plan(
        &self,
        alloc: Global,
        choice: &Choice,
        counts: &Weights,
    ) -> Result<Plan<AnyRoutine, AnyDraws, AnyDraws>, OutOfMemory>
        requires counted { length counts.now ≡ length self.now.routines }
        requires depth { HasDepth choice.now }
        ensures plan { IfOk result (IsPlanOf self.now choice.now counts.now) }
        ensures valid { IfOk result IsValidPlan }
    {
        let strategy = self.strategy(choice);
        let rule = rule(strategy, self.depth(choice));
        Ok(Plan {
            world: self.size,
            routines: copies(alloc, self.routines.as_slice())?,
            selection: selection(alloc, strategy, &self.select)?,
            walk: Walk::new(alloc, rule, counts.copy())?,
            selected: self.selected_draws(alloc, choice)?,
            other: self.other_draws(alloc, choice)?,
            max_steps: self.max_steps,
            monitors: Vec::from_slice(alloc, self.monitors.as_slice())?,
        })
    }
}

// The rule of a strategy, where a depth is given.
fn rule(strategy: Strategy, depth: u8) -> Rule
    requires { (1 ≤ depth) × (depth ≤ DEPTH) }
    ensures same { result ≡ rule_by strategy depth }
    ensures depth { IsDepth result }
{
    match strategy {
        Strategy::Urw => Rule::Urw,
        Strategy::Surw => Rule::Surw,
        Strategy::Pct => Rule::Pct { depth },
        Strategy::Plain => Rule::Plain,
    }
}

// What is selected under a strategy.
fn selection(
    alloc: Global,
    strategy: Strategy,
    select: &Selection,
) -> Result<Selection, OutOfMemory>
    ensures { IfOk result (λ selection. selection ≡ selection_by strategy select.now) }
{
    match strategy {
        Strategy::Urw => Ok(Selection::new(Vec::from_slice(alloc, &[Pickable::Every])?)),
        _ => select.copy(alloc),
    }
}

#[cfg(test)]
mod tests;
