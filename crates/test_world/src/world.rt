ghost use Rattle.std.specs.Prelude.{◌≡◌, ◌<◌, IsTrue, IfOk, length, slice_index};
ghost use Rattle.std.specs.List.{list_any};
ghost use Rattle.test_world.specs.Size.{IsWithinLimits, IsOfSize};
ghost use Rattle.test_world.specs.World.{new_world, holder_of, is_enabled, reply, after};
ghost use Rattle.test_world.specs.Monitor.{CanWatch, is_above, is_failing};
ghost use Rattle.page_cache.specs.Events.{flush};
ghost use Rattle.wal_log.specs.Events.{mark};

use crate::cells::Cells;
use crate::locks::Locks;
use crate::{Monitor, WorldSize};
use event_class::Event;
use page_cache::PageCache;
use std::alloc::Global;
use std::marker::Model;
use surw_base::{OutOfMemory, ThreadNo};
use wal_log::WalLog;

/// The state that the threads of a test share. A contract sees a record of its parts.
#[derive(Debug, Drop)]
pub struct World {
    size: WorldSize,
    cells: Cells,
    locks: Locks,
    cache: PageCache,
    log: WalLog,
    checks: u64,
    // Whether a page of the disk has a stamp above the mark of the log.
    ahead: bool,
}

impl Model for World {
    ghost use Rattle.test_world.specs.World.{WorldState, world_of};
    ghost use Rattle.test_world.specs.Monitor.{IsKept};

    ghost Value = { WorldState };

    ghost view = { λ w. world_of w.size w.cells w.locks w.cache w.log w.checks };

    ghost invariant = { λ w. IsKept w.ahead (world_of w.size w.cells w.locks w.cache w.log w.checks) };
}

impl World {
    /// A world of this size, which is within the limits, as a test begins: each cell is 0, each lock and each frame
    /// is free, page p has value p and stamp 0, no slot is reserved, and no check has failed. An error comes only
    /// where memory is refused. No other call takes memory.
    pub fn new(alloc: Global, size: &WorldSize) -> Result<World, OutOfMemory>
        requires limits { IsWithinLimits size.now }
        ensures { IfOk result (λ world. world ≡ new_world size.now) }
    {
        Ok(World {
            size: *size,
            cells: Cells::new(alloc, size.cells)?,
            locks: Locks::new(alloc, size.locks)?,
            cache: PageCache::new(alloc, size.frames, size.pages)?,
            log: WalLog::new(alloc, size.slots)?,
            checks: 0,
            ahead: false,
        })
    }

    /// Whether a thread can make the event: false exactly at the acquire of a lock that some thread holds.
    pub fn enabled(&self, event: &Event) -> bool
        ensures { result ≡ is_enabled self.now event.now }
    {
        match *event {
            Event::Acquire { l } => self.locks.is_free(l),
            _ => true,
        }
    }

    /// Makes an event of the thread, one that is enabled, and answers its reply.
    #[inline(always)]
    pub fn apply(&mut self, thread: ThreadNo, event: &Event) -> u64
        requires { IsTrue (is_enabled self.old event.now) }
        ensures reply { result ≡ reply self.old thread event.now }
        ensures after { self.new ≡ after self.old thread event.now }
        ensures size { self.new.size ≡ self.old.size }
    {
        match *event {
            Event::Acquire { l } => self.locks.acquire(thread, l),
            Event::Release { l } => self.locks.release(thread, l),
            Event::Load { c } => self.cells.load(c),
            Event::Store { c, v } => self.cells.store(c, v),
            Event::Add { c, v } => self.cells.add(c, v),
            Event::SwapIf { c, a, b } => self.cells.swap_if(c, a, b),
            Event::Find { p } => self.cache.find(p),
            Event::Claim { p } => self.cache.claim(p),
            Event::Fill { f, p } => self.cache.fill(f, p),
            Event::Read { f } => self.cache.read(f),
            Event::Write { f, v, n } => self.cache.write(f, v, n),
            Event::Oldest => self.cache.oldest(),
            Event::Stamp { f } => self.cache.stamp(f),
            Event::Flush { f } => self.flush(f),
            Event::Reserve => self.log.reserve(),
            Event::Put { s, v } => self.log.put(s, v),
            Event::Mark { n } => self.mark(n),
            Event::Durable => self.log.durable(),
            Event::Check { a, b } if a == b => 0,
            Event::Check { .. } => {
                self.checks = self.checks.saturating_add(1);
                1
            }
        }
    }

    /// Whether the monitor fails in this world, which has the cell that it watches.
    pub fn failing(&self, monitor: &Monitor) -> bool
        requires { CanWatch self.now.size monitor.now }
        ensures { result ≡ is_failing self.now monitor.now }
    {
        match *monitor {
            Monitor::WriteAhead => self.ahead,
            Monitor::LogWhole => !self.log.whole(),
            Monitor::Expect => self.checks > 0,
            Monitor::CellEnd { cell, value } => self.cells.value(cell) != value,
        }
    }

    /// The number of a cell that the world has.
    pub fn cell(&self, c: u16) -> u64
        requires { c < self.now.size.cells }
        ensures { result ≡ slice_index self.now.cells c }
    {
        self.cells.value(c)
    }

    /// The thread that holds a lock that the world has. None where it is free.
    pub fn holder(&self, l: u16) -> Option<ThreadNo>
        requires { l < self.now.size.locks }
        ensures { result ≡ holder_of self.now.locks l }
    {
        self.locks.holder(l)
    }

    /// The page cache with its disk.
    pub fn cache(&self) -> &PageCache
        ensures { result.now ≡ self.now.cache }
    {
        &self.cache
    }

    /// The log device.
    pub fn log(&self) -> &WalLog
        ensures { result.now ≡ self.now.log }
    {
        &self.log
    }

    /// How many checks have failed. It stays at the greatest number once it is there.
    pub fn checks(&self) -> u64
        ensures { result ≡ self.now.checks }
    {
        self.checks
    }

    /// Its size, within the limits.
    pub fn size(&self) -> WorldSize
        ensures same { result ≡ self.now.size }
        ensures parts { IsOfSize self.now }
    {
        self.size
    }

    // Flushes a frame. Only its page has a new stamp then: the frame's.
    fn flush(&mut self, f: u64) -> u64
        ensures reply { result ≡ (flush self.old.cache f).reply }
        ensures after { self.new ≡ record self.old { cache = (flush self.old.cache f).after } }
    {
        let mark = self.log.durable();
        // What a frame holds is a page of the disk.
        let _links = self.cache.links();
        let reply = self.cache.flush(f);
        if reply == 0 {
            let is_above = self.cache.stamp(f) > mark;
            self.ahead = is_above || self.ahead && any_above(&self.cache, self.size.pages, mark);
        }
        reply
    }

    // Raises the mark. No page gets ahead by it.
    fn mark(&mut self, n: u64) -> u64
        ensures reply { result ≡ (mark self.old.log n).reply }
        ensures after { self.new ≡ record self.old { log = (mark self.old.log n).after } }
    {
        let before = self.log.durable();
        let reply = self.log.mark(n);
        let mark = self.log.durable();
        if self.ahead && mark > before {
            self.ahead = any_above(&self.cache, self.size.pages, mark);
        }
        reply
    }
}

// Whether a page of the disk has a stamp above the mark.
fn any_above(cache: &PageCache, pages: u16, mark: u64) -> bool
    requires { pages ≡ length cache.now.disk }
    ensures { result ≡ list_any (is_above mark) cache.now.disk }
{
    for page in 0..pages {
        let (_, stamp) = cache.page(page);
        if stamp > mark {
            return true;
        }
    }
    false
}

#[cfg(test)]
mod tests;
