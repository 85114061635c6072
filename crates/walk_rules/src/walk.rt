ghost use Rattle.std.specs.Prelude.{◌≡◌, ◌↔◌, ◌<◌, ◌≤◌, ◌&&◌, not, if◌then◌else◌, IsSome, IsTrue, IfOk, IfSome, None, Some, is_some, length, slice_index};
ghost use Rattle.surw_base.specs.declared.limits.TheConstants.{THREADS, STEPS};
ghost use Rattle.seed_draws.specs.Answers.{after_bounds};
ghost use Rattle.walk_rules.specs.Ranks.{AreByPriority};
ghost use Rattle.walk_rules.specs.Seen.{able_threads};
ghost use Rattle.walk_rules.specs.State.{new_memory, new_walk, ranked_memory};
ghost use Rattle.walk_rules.specs.UnderPct.{IsUnderPct};
ghost use Rattle.walk_rules.specs.Strategies.{asked_at, asked_list, counts_down, pick_from};
ghost use Rattle.walk_rules.specs.Walk.{after_pick, after_done, counted, first_wrong, wrong_at, wrong_of, AreChosenUnder, AsksAble, GrantsAble, IsDepth, NoOtherIsWrong};

use crate::ranks::Ranks;
use crate::{Announced, Asked, Grant, Picked, Rule, Seen, follow, pct, plain, surw, urw};
use draw_split::Weights;
use frame_links::Links;
use seed_draws::Draws;
use std::alloc::Global;
use std::marker::Model;
use surw_base::{OutOfMemory, THREADS, ThreadNo};

/// A strategy at work: it picks the thread of each step, and is told when the step was done.
#[derive(Debug, Drop)]
pub struct Walk {
    rule: Rule,
    counts: Weights,
    steps: u32,
    left: Weights,
    intended: Option<ThreadNo>,
    // Under PCT alone.
    ranks: Option<Ranks>,
    waiting: Option<Grant>,
}

impl Model for Walk {
    ghost use Rattle.walk_rules.specs.State.{WalkState, ranked_memory};

    ghost Value = { WalkState };

    ghost use Rattle.walk_rules.specs.WalkInside.{IsWalk};

    ghost view = { λ walk. record {
      rule = walk.rule;
      counts = walk.counts;
      steps = walk.steps;
      left = walk.left;
      memory = ranked_memory walk.intended walk.ranks;
      waiting = walk.waiting;
    } };

    ghost invariant = { IsWalk };
}

impl Walk {
    /// The strategy with a count of events for each thread; PCT's depth is from 1 to `DEPTH`. An error comes only where
    /// memory is refused.
    pub fn new(alloc: Global, rule: Rule, counts: Weights) -> Result<Walk, OutOfMemory>
        requires { IsDepth rule }
        ensures { IfOk result (λ walk. walk ≡ new_walk rule counts) }
    {
        let left = counts.copy();
        let ranks = ranks_of(alloc, &rule, counts.threads())?;
        Ok(Walk {
            rule,
            counts,
            steps: 0,
            left,
            intended: None,
            ranks,
            waiting: None,
        })
    }

    /// An equal walk. An error comes only where memory is refused.
    pub fn copy(&self, alloc: Global) -> Result<Walk, OutOfMemory>
        ensures { IfOk result (λ copy. copy ≡ self.now) }
    {
        let rule = self.rule.copy(alloc)?;
        let ranks = copy_of_ranks(alloc, &self.ranks)?;
        Ok(Walk {
            rule,
            counts: self.counts.copy(),
            steps: self.steps,
            left: self.left.copy(),
            intended: self.intended,
            ranks,
            waiting: self.waiting,
        })
    }

    /// Whether the two are equal in all that they keep.
    pub fn same(&self, other: &Walk) -> bool
        ensures { IsTrue result ↔ (self.now ≡ other.now) }
    {
        self.rule.same(&other.rule)
            && self.counts.as_slice() == other.counts.as_slice()
            && self.steps == other.steps
            && self.left.as_slice() == other.left.as_slice()
            && self.intended == other.intended
            && priorities_of(&self.ranks) == priorities_of(&other.ranks)
            && changes_of(&self.ranks) == changes_of(&other.ranks)
            && self.waiting == other.waiting
    }

    /// The count of each thread that it is made of.
    pub fn counts(&self) -> &[u32]
        ensures { result.now ≡ self.now.counts }
    {
        self.counts.as_slice()
    }

    /// How many steps it was told, at most `STEPS`.
    pub fn steps(&self) -> u32
        ensures number { result ≡ self.now.steps }
        ensures most { result ≤ STEPS }
    {
        self.steps
    }

    /// Picks the thread of the next step by the draws that its rule asks of each source. The step is the number of
    /// steps told before; no grant waits, some thread can go on, and no thread is wrong; where a list is
    /// followed, it has an entry for this step, whose thread can go on. It stops only where a source refuses in this
    /// call, and is then as before.
    #[tactic(auto, unfolding(seed_draws::specs::Answers::after_bounds))]
    #[inline(always)]
    pub fn pick<S: Draws, O: Draws>(
        &mut self,
        step: u32,
        view: &Announced,
        selected: &mut S,
        other: &mut O,
    ) -> Picked
        requires each { length view.now ≡ length self.old.counts }
        requires step { step ≡ self.old.steps }
        requires room { step < STEPS }
        requires free { self.old.waiting ≡ None }
        requires able { 0 < length (able_threads view.now) }
        requires right { wrong_of self.old view.now ≡ None }
        requires chosen { AreChosenUnder self.old.rule view.now }
        requires asked { AsksAble (asked_list self.old.rule) step view.now }
        ensures picked { result ≡ (pick_from S.Draws O.Draws self.old view.now selected.old other.old).picked }
        ensures walk { self.new ≡ after_pick self.old (pick_from S.Draws O.Draws self.old view.now selected.old other.old) }
        ensures selected { selected.new
            ≡ after_bounds S.Draws selected.old (pick_from S.Draws O.Draws self.old view.now selected.old other.old).selected_bounds }
        ensures other { other.new
            ≡ after_bounds O.Draws other.old (pick_from S.Draws O.Draws self.old view.now selected.old other.old).other_bounds }
        ensures able { GrantsAble view.now result }
    {
        let mut intended = self.intended;
        let picked = match &self.rule {
            Rule::Urw => urw::pick(&self.left, view, selected),
            Rule::Surw => match surw::intend(&self.left, self.intended, selected) {
                Ok(found) => {
                    intended = found;
                    surw::choose(view, found, other)
                }
                Err(fault) => Picked::Stop(fault),
            },
            Rule::Pct { depth } => match &mut self.ranks {
                Some(ranks) => pct::pick(*depth, &self.counts, step, ranks, view, selected),
                None => unreachable!(),
            },
            Rule::Plain => plain::pick(view, other),
            Rule::Follow(list) => follow::pick(list, step, view),
        };
        if let Picked::Grant { thread, forced } = picked {
            self.intended = intended;
            self.waiting = Some(Grant { thread, forced });
        }
        picked
    }

    /// Tells that the step of the last pick was done, and whether its event was selected. Where the rule counts
    /// selected events, a number is left for the thread of one.
    #[inline(always)]
    pub fn done(&mut self, thread: ThreadNo, chosen: bool, forced: bool)
        requires granted { self.old.waiting ≡ Some (record { thread = thread; forced = forced }) }
        requires left { IsTrue (counts_down self.old.rule) → IsTrue chosen → 0 < slice_index self.old.left thread }
        ensures { self.new ≡ after_done self.old thread chosen forced }
    {
        if self.rule.counts_down() && chosen {
            self.left.take(thread);
        }
        self.intended = intended_after(self.intended, chosen, forced);
        self.steps += 1;
        self.waiting = None;
    }

    /// Where the rule counts events: the least thread that has ended with a number left, or announces a selected
    /// event with none left, with its count and the number that it made. None under the other rules, and where
    /// no thread is so.
    pub fn wrong(&self, view: &Announced) -> Option<(ThreadNo, u32, u32)>
        requires { length view.now ≡ length self.now.counts }
        ensures { result ≡ wrong_of self.now view.now }
    {
        if !self.rule.counts_down() {
            return None;
        }
        match first_wrong(self.left.as_slice(), view.as_slice()) {
            None => None,
            Some(thread) => Some(self.counted(thread)),
        }
    }

    /// The same for one thread alone. Where no other thread is wrong it is what `wrong` finds.
    #[inline(always)]
    pub fn wrong_at(&self, view: &Announced, thread: ThreadNo) -> Option<(ThreadNo, u32, u32)>
        requires each { length view.now ≡ length self.now.counts }
        requires thread { thread < length view.now }
        ensures found { result ≡ wrong_at self.now view.now thread }
        ensures alone { NoOtherIsWrong self.now view.now thread → result ≡ wrong_of self.now view.now }
    {
        if self.rule.counts_down() && view.get(thread).is_wrong(self.left.left(thread)) {
            Some(self.counted(thread))
        } else {
            None
        }
    }

    // A thread with its count and the number of events that it made.
    fn counted(&self, thread: ThreadNo) -> (ThreadNo, u32, u32)
        ensures { result ≡ counted self.now.counts self.now.left thread }
    {
        let counted = self.counts.left(thread);
        (thread, counted, counted - self.left.left(thread))
    }

    /// Whether its rule follows a list.
    pub fn follows(&self) -> bool
        ensures { result ≡ is_some (asked_list self.now.rule) }
    {
        self.rule.asked().is_some()
    }

    /// The entry that its rule asks for at a place. None where the rule follows no list, and past the end of the list.
    pub fn asked(&self, k: u32) -> Option<Asked>
        ensures { result ≡ asked_at self.now.rule k }
    {
        match self.rule.asked() {
            Some(list) if k < list.len() => Some(list.at(k)),
            _ => None,
        }
    }

    /// Under PCT, once the priorities are drawn: links whose one list has the threads from the highest priority to
    /// the lowest. None before, and under the other rules.
    pub fn by_priority(&self) -> Option<&Links>
        ensures some { IsSome result ↔ (0 < length self.now.memory.priorities) }
        ensures threads { IfSome result (λ links. AreByPriority (length self.now.counts) self.now.memory.priorities links.now) }
    {
        match &self.ranks {
            Some(ranks) => ranks.drawn(),
            None => None,
        }
    }

    /// The thread that is intended, if there is one.
    pub fn intended(&self) -> Option<ThreadNo>
        ensures { result ≡ self.now.memory.intended }
    {
        self.intended
    }
}

// The ranks that a rule wants for so many threads.
fn ranks_of(alloc: Global, rule: &Rule, threads: usize) -> Result<Option<Ranks>, OutOfMemory>
    requires few { threads ≤ THREADS }
    requires depth { IsDepth rule.now }
    ensures memory { IfOk result (λ ranks. ranked_memory None ranks ≡ new_memory) }
    ensures ranks { IfOk result (λ ranks. IsUnderPct rule.now threads 0 None ranks) }
{
    match rule {
        Rule::Pct { depth: _ } => Ok(Some(Ranks::new(alloc, threads)?)),
        _ => Ok(None),
    }
}

// Equal ranks, if there are any.
fn copy_of_ranks(alloc: Global, ranks: &Option<Ranks>) -> Result<Option<Ranks>, OutOfMemory>
    ensures { IfOk result (λ copy. copy ≡ ranks.now) }
{
    match ranks {
        Some(ranks) => Ok(Some(ranks.copy(alloc)?)),
        None => Ok(None),
    }
}

fn priorities_of(ranks: &Option<Ranks>) -> &[u32]
    ensures { result.now ≡ (ranked_memory None ranks.now).priorities }
{
    match ranks {
        Some(ranks) => ranks.priorities(),
        None => &[],
    }
}

fn changes_of(ranks: &Option<Ranks>) -> &[u64]
    ensures { result.now ≡ (ranked_memory None ranks.now).changes }
{
    match ranks {
        Some(ranks) => ranks.changes(),
        None => &[],
    }
}

// The thread that is intended after a step: none after a selected one that isn't forced.
fn intended_after(intended: Option<ThreadNo>, chosen: bool, forced: bool) -> Option<ThreadNo>
    ensures { result ≡ (if chosen && not forced then None else intended) }
{
    if chosen && !forced { None } else { intended }
}

// The least thread that has ended with a number left, or announces a selected event with none left.
#[tactic(auto, using(crate::proofs::WrongThreads::firsts))]
fn first_wrong(left: &[u32], view: &[Seen]) -> Option<ThreadNo>
    requires each { length view.now ≡ length left.now }
    requires threads { length view.now ≤ THREADS }
    ensures { result ≡ first_wrong left.now view.now }
{
    for (thread, seen) in view.iter().enumerate() {
        if seen.is_wrong(left[thread]) {
            return Some(ThreadNo::new(thread as u8).unwrap());
        }
    }
    None
}

#[cfg(test)]
mod tests;
