ghost use Rattle.std.specs.Prelude.{◌≡◌, ◌^◌, ◌<◌, ◌≤◌, length, map, replicate, slice_index, slice_set};
ghost use Rattle.std.specs.List.{count_by};
ghost use Rattle.std.specs.Simd.Lanes.{mask_l};
ghost use Rattle.surw_base.specs.declared.limits.TheConstants.{THREADS};
ghost use Rattle.walk_rules.specs.declared.seen.Seen.TheVariants.{Over};
ghost use Rattle.walk_rules.specs.Seen.{is_able, is_announcing, is_unselected, seen_of, able_threads, held_threads};
ghost use Rattle.walk_rules.specs.ThreadSet.{members};

use crate::Seen;
use crate::thread_set::ThreadSet;
use arrayvec::ArrayVec;
use std::marker::Model;
use surw_base::{THREADS, ThreadNo};

/// What a strategy sees of each thread. A contract sees the list.
#[derive(Debug, Drop)]
pub struct Announced {
    seen: ArrayVec<Seen, THREADS>,
    // The threads that announce an event, those of them whose event is enabled, and those of these whose event isn't
    // selected.
    announcing: ThreadSet,
    able: ThreadSet,
    unselected: ThreadSet,
}

impl Model for Announced {
    ghost use Rattle.std.specs.Prelude.{List};
    ghost use Rattle.walk_rules.specs.declared.seen.Seen.{Seen};

    ghost Value = { List Seen };

    ghost use Rattle.walk_rules.specs.Announced.{AreKept};

    ghost view = { λ announced. announced.seen.items };

    ghost invariant = { AreKept };
}

impl Announced {
    /// So many threads, at most `THREADS`, that have ended.
    pub fn new(threads: usize) -> Announced
        requires { threads ≤ THREADS }
        ensures { result ≡ replicate threads Over }
    {
        let mut seen = ArrayVec::new();
        for _thread in 0..threads {
            seen.push(Seen::Over);
        }
        Announced {
            seen,
            announcing: ThreadSet::new(),
            able: ThreadSet::new(),
            unselected: ThreadSet::new(),
        }
    }

    /// Puts what is seen of a thread.
    #[tactic(auto, using(crate::proofs::MarkedThreads::marks))]
    pub fn set(&mut self, thread: ThreadNo, seen: Seen)
        requires { thread < length self.old }
        ensures { self.new ≡ slice_set self.old thread seen }
    {
        let place = usize::from(thread.get());
        let before = self.seen[place];
        self.seen[place] = seen;
        self.announcing
            .change(thread, before.is_announcing(), seen.is_announcing());
        self.able.change(thread, before.is_able(), seen.is_able());
        self.unselected
            .change(thread, before.is_unselected(), seen.is_unselected());
    }

    /// What is seen of a thread.
    pub fn get(&self, thread: ThreadNo) -> Seen
        requires { thread < length self.now }
        ensures { result ≡ seen_of self.now thread }
    {
        self.seen[usize::from(thread.get())]
    }

    /// How many threads there are, at most `THREADS`.
    pub fn threads(&self) -> usize
        ensures number { result ≡ length self.now }
        ensures most { result ≤ THREADS }
    {
        self.seen.len()
    }

    /// How many threads announce an event.
    pub fn announcing(&self) -> usize
        ensures { result ≡ count_by is_announcing self.now }
    {
        self.announcing.len()
    }

    /// How many threads can go on.
    pub fn able(&self) -> usize
        ensures { result ≡ length (able_threads self.now) }
    {
        self.able.len()
    }

    // The thread at a place among those that can go on.
    pub(crate) fn able_at(&self, place: u64) -> ThreadNo
        requires { place < length (able_threads self.now) }
        ensures { result ≡ slice_index (able_threads self.now) place }
    {
        self.able.at(place)
    }

    // Whether a thread can go on.
    pub(crate) fn is_able(&self, thread: usize) -> bool
        requires { thread < length self.now }
        ensures { result ≡ is_able (seen_of self.now thread) }
    {
        self.able.has(thread)
    }

    // The threads that announce an event that isn't enabled.
    pub(crate) fn held(&self) -> ThreadSet
        ensures threads { members THREADS 0 result.bits ≡ held_threads self.now }
        ensures few { result.bits < 2 ^ THREADS }
    {
        self.announcing.without(self.able)
    }

    // The threads that can go on whose event isn't selected.
    pub(crate) fn unselected(&self) -> ThreadSet
        ensures marked { result.bits ≡ mask_l (map is_unselected self.now) }
        ensures threads { length self.now ≤ THREADS }
    {
        self.unselected
    }

    // What is seen of each thread, in order.
    pub(crate) fn as_slice(&self) -> &[Seen]
        ensures same { result.now ≡ self.now }
        ensures threads { length self.now ≤ THREADS }
    {
        self.seen.as_slice()
    }
}
