ghost use Rattle.std.specs.Prelude.{◌≡◌, ◌≢◌, ◌<◌, ◌≤◌, ◌-◌, ◌+◌, [], ltb, length, slice_index, slice_set, IfOk, IfSome, IsSome, ◌↔◌, ℕ};
ghost use Rattle.std.specs.List.{find};
ghost use Rattle.surw_base.specs.declared.limits.TheConstants.{THREADS};
ghost use Rattle.frame_links.specs.Lists.{list_at, node_count, HasEachOnce, HasSameNodes};
ghost use Rattle.pct_draws.specs.ChangePoints.{IsWithinDepth};
ghost use Rattle.pct_draws.specs.Order.{IsOrder};
ghost use Rattle.walk_rules.specs.Pct.{changed, first_priorities, highest, place_of};
ghost use Rattle.walk_rules.specs.Ranked.{IsFresh};
ghost use Rattle.walk_rules.specs.Ranks.{AreByPriority};
ghost use Rattle.walk_rules.specs.Seen.{able_threads, is_able, seen_of};

use crate::Seen;
use arrayvec::ArrayVec;
use frame_links::Links;
use std::alloc::Global;
use std::marker::Model;
use surw_base::{OutOfMemory, THREADS, ThreadNo};

/// The threads by priority, and the change points.
#[derive(Debug, Drop)]
pub(crate) struct Ranks {
    threads: usize,
    // In one list, from the highest priority to the lowest once they are drawn.
    by_priority: Links,
    // The priority of each thread.
    priorities: ArrayVec<u32, THREADS>,
    changes: ArrayVec<u64, THREADS>,
}

impl Model for Ranks {
    ghost use Rattle.walk_rules.specs.Ranked.{Ranked};
    ghost use Rattle.walk_rules.specs.Ranks.{AreRanked};

    ghost Value = { Ranked };

    ghost view = { λ ranks. record { threads = ranks.threads; priorities = ranks.priorities.items; changes = ranks.changes.items } };

    ghost invariant = { AreRanked };
}

impl Ranks {
    /// So many threads without priorities. An error comes only where memory is refused.
    pub(crate) fn new(alloc: Global, threads: usize) -> Result<Ranks, OutOfMemory>
        requires { threads ≤ THREADS }
        ensures { IfOk result (λ ranks. ranks ≡ record { threads = threads; priorities = []; changes = [] }) }
    {
        let by_priority = Links::new(alloc, threads as u16, 1)?;
        Ok(Ranks {
            threads,
            by_priority,
            priorities: ArrayVec::new(),
            changes: ArrayVec::new(),
        })
    }

    /// Equal ranks. An error comes only where memory is refused.
    pub(crate) fn copy(&self, alloc: Global) -> Result<Ranks, OutOfMemory>
        ensures { IfOk result (λ copy. copy ≡ self.now) }
    {
        let by_priority = self.by_priority.copy(alloc)?;
        Ok(Ranks {
            threads: self.threads,
            by_priority,
            priorities: copied(&self.priorities),
            changes: copied(&self.changes),
        })
    }

    /// The priority of each thread, once they are drawn.
    pub(crate) fn priorities(&self) -> &[u32]
        ensures { result.now ≡ self.now.priorities }
    {
        self.priorities.as_slice()
    }

    /// The change points.
    pub(crate) fn changes(&self) -> &[u64]
        ensures { result.now ≡ self.now.changes }
    {
        self.changes.as_slice()
    }

    /// The threads in one list, from the highest priority to the lowest, once they are drawn.
    pub(crate) fn drawn(&self) -> Option<&Links>
        ensures some { IsSome result ↔ (0 < length self.now.priorities) }
        ensures threads { IfSome result (λ links. AreByPriority self.now.threads self.now.priorities links.now) }
    {
        if self.priorities.len() > 0 {
            Some(&self.by_priority)
        } else {
            None
        }
    }

    /// Puts the threads into a drawn order, with priorities that fall to `depth`, and takes the change points.
    pub(crate) fn put_in_order(&mut self, order: &[u8], depth: u32, changes: ArrayVec<u64, THREADS>)
        requires order { IsOrder self.old.threads order.now }
        requires depth { IsWithinDepth depth }
        ensures threads { self.new.threads ≡ self.old.threads }
        ensures priorities { self.new.priorities ≡ first_priorities depth (length order.now) order.now }
        ensures changes { self.new.changes ≡ changes.items }
    {
        in_order(&mut self.by_priority, order);
        self.priorities = priorities_along(order, depth);
        self.changes = changes;
    }

    /// The thread of highest priority among those that can go on.
    pub(crate) fn highest(&self, view: &[Seen]) -> ThreadNo
        requires each { length view.now ≡ self.now.threads }
        requires drawn { length self.now.priorities ≡ self.now.threads }
        requires able { 0 < length (able_threads view.now) }
        ensures highest { result ≡ highest self.now.priorities (able_threads view.now) }
        ensures within { result < self.now.threads }
    {
        match first_able(&self.by_priority, view) {
            Some(node) => ThreadNo::new(node as u8).unwrap(),
            None => unreachable!(),
        }
    }

    /// Gives a thread a priority that no other has: it goes before the first thread of a lower one, or to the back.
    pub(crate) fn give(&mut self, thread: ThreadNo, priority: u32)
        requires thread { thread < self.old.threads }
        requires drawn { length self.old.priorities ≡ self.old.threads }
        requires apart { (other : ℕ) → slice_index self.old.priorities other ≢ priority }
        ensures threads { self.new.threads ≡ self.old.threads }
        ensures priorities { self.new.priorities ≡ slice_set self.old.priorities thread priority }
        ensures changes { self.new.changes ≡ self.old.changes }
    {
        set_priority(&mut self.priorities, thread, priority);
        let node = u16::from(thread.get());
        match first_lower(&self.by_priority, self.priorities.as_slice(), priority) {
            Some(lower) => self.by_priority.before(node, lower),
            None => self.by_priority.to_back(0, node),
        }
    }

    /// Makes the changes before a step, in rising order.
    pub(crate) fn change(&mut self, step: u32, view: &[Seen])
        requires each { length view.now ≡ self.old.threads }
        requires drawn { length self.old.priorities ≡ self.old.threads }
        requires able { 0 < length (able_threads view.now) }
        requires fresh { IsFresh step self.old.changes self.old.priorities }
        ensures threads { self.new.threads ≡ self.old.threads }
        ensures priorities { self.new.priorities ≡ changed step view.now 1 self.old.changes self.old.priorities }
        ensures drawn { length self.new.priorities ≡ self.old.threads }
        ensures changes { self.new.changes ≡ self.old.changes }
        ensures fresh { IsFresh (step + 1) self.new.changes self.new.priorities }
    {
        for place in 0..self.changes.len() {
            if self.changes[place] == u64::from(step) {
                let thread = self.highest(view);
                self.give(thread, place as u32 + 1);
            }
        }
    }
}

fn set_priority(priorities: &mut ArrayVec<u32, THREADS>, thread: ThreadNo, priority: u32)
    requires { thread < length priorities.old.items }
    ensures { priorities.new.items ≡ slice_set priorities.old.items thread priority }
{
    priorities[usize::from(thread.get())] = priority;
}

// An equal list.
fn copied<T: Copy + Default + Drop>(items: &ArrayVec<T, THREADS>) -> ArrayVec<T, THREADS>
    ensures { result.items ≡ items.now.items }
{
    ArrayVec::try_from(items.as_slice()).unwrap()
}

// The first thread of the list that can go on.
fn first_able(links: &Links, view: &[Seen]) -> Option<u16>
    requires one { length links.now ≡ 1 }
    requires each { length view.now ≡ node_count links.now }
    requires each_once { HasEachOnce links.now }
    ensures { result ≡ find (λ thread. is_able (seen_of view.now thread)) (list_at links.now 0) }
{
    let mut at = links.first(0);
    while let Some(node) = at {
        if view[usize::from(node)].is_able() {
            return at;
        }
        at = links.next(node);
    }
    None
}

// The first thread of the list that has a lower priority.
fn first_lower(links: &Links, priorities: &[u32], priority: u32) -> Option<u16>
    requires one { length links.now ≡ 1 }
    requires each { length priorities.now ≡ node_count links.now }
    requires each_once { HasEachOnce links.now }
    ensures { result ≡ find (λ thread. ltb (slice_index priorities.now thread) priority) (list_at links.now 0) }
{
    let mut at = links.first(0);
    while let Some(node) = at {
        if priorities[usize::from(node)] < priority {
            return at;
        }
        at = links.next(node);
    }
    None
}

// Puts the nodes of the one list into this order.
fn in_order(links: &mut Links, order: &[u8])
    requires one { length links.old ≡ 1 }
    requires each_once { HasEachOnce links.old }
    requires order { IsOrder (node_count links.old) order.now }
    ensures list { list_at links.new 0 ≡ order.now }
    ensures same_nodes { HasSameNodes links.old links.new }
{
    for thread in order {
        links.to_back(0, u16::from(*thread));
    }
}

// The priorities of the threads of an order, falling to `depth` for the last.
fn priorities_along(order: &[u8], depth: u32) -> ArrayVec<u32, THREADS>
    requires few { length order.now ≤ THREADS }
    requires depth { IsWithinDepth depth }
    ensures { result.items ≡ first_priorities depth (length order.now) order.now }
{
    let mut priorities = ArrayVec::new();
    for thread in 0..order.len() {
        priorities.push(depth - 1 + order.len() as u32 - place_of(order, thread as u8));
    }
    priorities
}

// The place of a thread in an order, or the length where it isn't in it.
fn place_of(order: &[u8], thread: u8) -> u32
    requires { length order.now ≤ THREADS }
    ensures place { result ≡ place_of order.now thread }
    ensures most { result ≤ length order.now }
{
    for (place, other) in order.iter().enumerate() {
        if *other == thread {
            return place as u32;
        }
    }
    order.len() as u32
}
