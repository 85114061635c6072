ghost use Rattle.std.specs.Prelude.{◌≡◌, ◌≤◌, length};
ghost use Rattle.surw_base.specs.declared.limits.TheConstants.{DEPTH, THREADS};
ghost use Rattle.scenario_toml.specs.Chosen.{depth_by, seed_by, strategy_by, HasDepth};
ghost use Rattle.scenario_toml.specs.State.{HasCounts};

use crate::entries::Entries;
use crate::{Choice, CountsRule, Strategy};
use event_class::Selection;
use routine_kit::AnyRoutine;
use std::marker::Model;
use test_world::{Monitor, WorldSize};

/// What a scenario file says. A contract sees the values of its keys.
#[derive(Debug, Drop)]
pub struct Scenario {
    pub(crate) strategy: Strategy,
    pub(crate) seed: u64,
    pub(crate) depth: u8,
    pub(crate) max_steps: u32,
    pub(crate) select: Selection,
    pub(crate) counts: CountsRule,
    pub(crate) monitors: Vec<Monitor>,
    pub(crate) size: WorldSize,
    pub(crate) tapes: Option<Entries>,
    pub(crate) routines: Vec<AnyRoutine>,
}

impl Model for Scenario {
    ghost use Rattle.scenario_toml.specs.View.{state_of};
    ghost use Rattle.scenario_toml.specs.State.{ScenarioState, IsScenario};

    ghost Value = { ScenarioState };

    ghost view = { state_of };

    ghost invariant = { λ scenario. IsScenario (state_of scenario) };
}

impl Scenario {
    /// The strategy: the choice's where it has one, else the file's.
    pub fn strategy(&self, choice: &Choice) -> Strategy
        ensures { result ≡ strategy_by self.now choice.now }
    {
        match choice.strategy {
            Some(strategy) => strategy,
            None => self.strategy,
        }
    }

    /// The seed: the choice's where it has one, else the file's.
    pub fn seed(&self, choice: &Choice) -> u64
        ensures { result ≡ seed_by self.now choice.now }
    {
        match choice.seed {
            Some(seed) => seed,
            None => self.seed,
        }
    }

    /// The depth: the choice's where it has one, else the file's, which is from 1 to `DEPTH`.
    pub fn depth(&self, choice: &Choice) -> u8
        ensures given { result ≡ depth_by self.now choice.now }
        ensures within { HasDepth choice.now → (1 ≤ result) × (result ≤ DEPTH) }
    {
        match choice.depth {
            Some(depth) => depth,
            None => self.depth,
        }
    }

    /// Where the counts come from. Those that the file gives are one for each thread. It takes no memory.
    pub fn counts(&self) -> CountsRule
        ensures same { result ≡ self.now.counts }
        ensures each { HasCounts result (length self.now.routines) }
    {
        self.counts.copy()
    }

    /// How many threads there are, at most `THREADS`.
    pub fn threads(&self) -> usize
        ensures number { result ≡ length self.now.routines }
        ensures most { result ≤ THREADS }
    {
        self.routines.len()
    }
}
