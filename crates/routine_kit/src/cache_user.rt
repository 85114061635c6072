ghost use Rattle.std.specs.Prelude.{◌≡◌};
ghost use Rattle.routine_kit.specs.CacheUser.{new_cache_user, cache_user_announced, cache_user_after, first_phase, last_phase};

use crate::Routine;
use event_class::Event;
use std::alloc::Global;
use surw_base::OutOfMemory;

/// A routine that reads a page through the cache and checks its value: it finds the page's frame, or claims one and
/// fills it. Where no frame can be claimed it reads none. It may hold a lock from its beginning to its end.
#[derive(Clone, Copy, Debug, PartialEq, Eq)]
pub struct CacheUser {
    page: u64,
    expect: u64,
    lock: Option<u64>,
    phase: Phase,
}

// The event that comes next, with what it needs of the replies so far.
#[derive(Clone, Copy, Debug, PartialEq, Eq)]
enum Phase {
    Acquire { lock: u64 },
    Find,
    Claim,
    Fill { frame: u64 },
    Read { frame: u64 },
    Check { value: u64 },
    Release { lock: u64 },
    Ended,
}

impl CacheUser {
    /// A user of a page that expects this value there, with a lock if one is named. Each number may be any.
    pub fn new(page: u64, expect: u64, lock: Option<u64>) -> CacheUser
        ensures { result ≡ new_cache_user page expect lock }
    {
        CacheUser {
            page,
            expect,
            lock,
            phase: first_phase(lock),
        }
    }
}

impl Routine for CacheUser {
    ghost announced = { cache_user_announced };

    ghost after_reply = { cache_user_after };

    fn announce(&self) -> Option<Event> {
        let p = self.page;
        Some(match self.phase {
            Phase::Acquire { lock } => Event::Acquire { l: lock },
            Phase::Find => Event::Find { p },
            Phase::Claim => Event::Claim { p },
            Phase::Fill { frame } => Event::Fill { f: frame, p },
            Phase::Read { frame } => Event::Read { f: frame },
            Phase::Check { value } => Event::Check {
                a: value,
                b: self.expect,
            },
            Phase::Release { lock } => Event::Release { l: lock },
            Phase::Ended => return None,
        })
    }

    fn take(&mut self, reply: u64) {
        // The greatest number says that no frame was found, or that none can be claimed.
        self.phase = match self.phase {
            Phase::Acquire { .. } => Phase::Find,
            Phase::Find if reply == u64::MAX => Phase::Claim,
            Phase::Find => Phase::Read { frame: reply },
            Phase::Claim if reply == u64::MAX => last_phase(self.lock),
            Phase::Claim => Phase::Fill { frame: reply },
            Phase::Fill { frame } => Phase::Read { frame },
            Phase::Read { .. } => Phase::Check { value: reply },
            Phase::Check { .. } => last_phase(self.lock),
            Phase::Release { .. } | Phase::Ended => Phase::Ended,
        };
    }

    fn copy(&self, _alloc: Global) -> Result<CacheUser, OutOfMemory> {
        Ok(*self)
    }
}

// The lock is acquired first, where one is named.
fn first_phase(lock: Option<u64>) -> Phase
    ensures { result ≡ first_phase lock }
{
    match lock {
        Some(lock) => Phase::Acquire { lock },
        None => Phase::Find,
    }
}

// The lock is released last, where one is named.
fn last_phase(lock: Option<u64>) -> Phase
    ensures { result ≡ last_phase lock }
{
    match lock {
        Some(lock) => Phase::Release { lock },
        None => Phase::Ended,
    }
}

#[cfg(test)]
mod tests;
