ghost use Rattle.std.specs.Prelude.{◌≡◌, ◌<◌, ◌≤◌, IfOk, Some, None, length, replicate, slice_set};
ghost use Rattle.test_world.specs.World.{holder_of, is_free, zero_or_greatest, released, release_reply};

use std::alloc::Global;
use std::marker::Model;
use surw_base::{OutOfMemory, ThreadNo};

/// Locks, each held by a thread or free. A contract sees the list of the holders' numbers.
#[derive(Debug, Drop)]
pub(crate) struct Locks {
    holders: Vec<Option<ThreadNo>>,
}

impl Model for Locks {
    ghost use Rattle.std.specs.Prelude.{ℕ, List, Option};

    ghost Value = { List (Option ℕ) };

    ghost view = { λ locks. locks.holders.items };
}

impl Locks {
    /// So many free locks. An error comes only where memory is refused.
    pub(crate) fn new(alloc: Global, count: u16) -> Result<Locks, OutOfMemory>
        ensures { IfOk result (λ locks. locks ≡ replicate count None) }
    {
        let holders = vec![in alloc; None; usize::from(count)]?;
        Ok(Locks { holders })
    }

    /// The thread that holds a lock. None where it is free.
    pub(crate) fn holder(&self, l: u16) -> Option<ThreadNo>
        requires { l < length self.now }
        ensures { result ≡ holder_of self.now l }
    {
        self.holders[usize::from(l)]
    }

    /// Whether no thread holds lock `l`.
    pub(crate) fn is_free(&self, l: u64) -> bool
        ensures { result ≡ is_free self.now l }
    {
        self.holders.get(l as usize).copied().flatten().is_none()
    }

    /// Gives lock `l` to the thread.
    pub(crate) fn acquire(&mut self, thread: ThreadNo, l: u64) -> u64
        ensures reply { result ≡ zero_or_greatest self.old l }
        ensures after { self.new ≡ slice_set self.old l (Some thread) }
    {
        match self.holders.get_mut(l as usize) {
            Some(holder) => {
                *holder = Some(thread);
                0
            }
            None => u64::MAX,
        }
    }

    /// Frees lock `l` if the thread holds it.
    pub(crate) fn release(&mut self, thread: ThreadNo, l: u64) -> u64
        ensures reply { result ≡ release_reply self.old thread l }
        ensures after { self.new ≡ released self.old thread l }
    {
        match self.holders.get_mut(l as usize) {
            None => u64::MAX,
            Some(holder) if *holder == Some(thread) => {
                *holder = None;
                0
            }
            Some(_) => 1,
        }
    }
}
