ghost use Rattle.std.specs.Prelude.{◌≡◌, ◌↔◌, IfOk, IsTrue, MatchOption, None, Some};
ghost use Rattle.walk_rules.specs.Strategies.{asked_list, counts_down};

use crate::AskedList;
use std::alloc::Global;
use surw_base::OutOfMemory;

/// A strategy. URW and SURW are after Zhao, Wolff, Mathur and Roychoudhury, "Selectively Uniform Concurrency Testing",
/// ASPLOS 2025; PCT is after Burckhardt, Kothari, Musuvathi and Nagarakatte, "A Randomized Scheduler with
/// Probabilistic Guarantees of Finding Bugs", ASPLOS 2010. The details are this project's own.
#[derive(Debug, Drop)]
pub enum Rule {
    /// Every event is selected, and the next thread is picked with a weight equal to its number of events left.
    Urw,
    /// A thread is intended with a weight equal to its number of selected events left, until it makes one; an other
    /// draw picks among the threads whose event isn't selected and the intended one. Where none of these can go on,
    /// the step is forced, and picks among all that can.
    Surw,
    /// Each thread has a drawn priority, and the highest that can go on is picked; at drawn steps it gets a low one.
    Pct {
        /// One more than there are such steps, from 1 to `DEPTH`.
        depth: u8,
    },
    /// Each thread that can go on is picked with equal weight.
    Plain,
    /// The entries of a list are asked for, one a step: a replay. No draw is asked for.
    Follow(AskedList),
}

impl Rule {
    // An equal rule.
    pub(crate) fn copy(&self, alloc: Global) -> Result<Rule, OutOfMemory>
        ensures { IfOk result (λ copy. copy ≡ self.now) }
    {
        match self {
            Rule::Urw => Ok(Rule::Urw),
            Rule::Surw => Ok(Rule::Surw),
            Rule::Pct { depth } => Ok(Rule::Pct { depth: *depth }),
            Rule::Plain => Ok(Rule::Plain),
            Rule::Follow(list) => Ok(Rule::Follow(list.copy(alloc)?)),
        }
    }

    // Whether the two are equal.
    pub(crate) fn same(&self, other: &Rule) -> bool
        ensures { IsTrue result ↔ (self.now ≡ other.now) }
    {
        match (self, other) {
            (Rule::Urw, Rule::Urw) | (Rule::Surw, Rule::Surw) | (Rule::Plain, Rule::Plain) => true,
            (Rule::Pct { depth }, Rule::Pct { depth: other }) => depth == other,
            (Rule::Follow(list), Rule::Follow(other)) => list.same(other),
            _ => false,
        }
    }

    // The list of entries that it asks for, where it follows one.
    pub(crate) fn asked(&self) -> Option<&AskedList>
        ensures { MatchOption result (asked_list self.now ≡ None) (λ list. asked_list self.now ≡ Some list.now) }
    {
        match self {
            Rule::Follow(list) => Some(list),
            _ => None,
        }
    }

    // Whether it takes from the numbers left.
    pub(crate) fn counts_down(&self) -> bool
        ensures { result ≡ counts_down self.now }
    {
        match self {
            Rule::Urw | Rule::Surw => true,
            Rule::Pct { depth: _ } | Rule::Plain | Rule::Follow(_) => false,
        }
    }
}
