ghost use Rattle.std.specs.Prelude.{◌≡◌, ◌<◌, ◌≤◌, IfOk, IfSome, All, length, map, is_none, option_map, slice_get, true, false, Some, None};
ghost use Rattle.std.specs.List.{range_with_len};
ghost use Rattle.surw_base.specs.declared.limits.TheConstants.{FRAMES, PAGES};
ghost use Rattle.frame_links.specs.Lists.{list_at};
ghost use Rattle.page_cache.specs.Cache.{new_cache, new_page, lists_of, is_past, has, holds};
ghost use Rattle.page_cache.specs.Cache.{frame_of, held_in, clean_in, dirty_in, on_disk};
ghost use Rattle.page_cache.specs.Cache.{last_of_clean, last_of_dirty, holding, stored, IsOfSize, HasSameSize};
ghost use Rattle.page_cache.specs.Events.{find, claim, fill, read, write, oldest, stamp, flush};
ghost use Rattle.page_cache.specs.Sound.{IsSound};

use crate::listed::listed;
use crate::{Content, Held, Vec16};
use frame_links::Links;
use std::alloc::Global;
use std::marker::Model;
use surw_base::OutOfMemory;

// The lists of the links.
const FREE: u8 = 0;

const CLEAN: u8 = 1;

const DIRTY: u8 = 2;

/// Frames in three lists, what they hold, and the pages of a disk. A contract sees a record of these. An event whose
/// frame or page there isn't replies the greatest number.
#[derive(Debug, Drop)]
pub struct PageCache {
    links: Links,
    frames: Vec<Option<Held>>,
    disk: Vec<Content>,
}

impl Model for PageCache {
    ghost use Rattle.page_cache.specs.Cache.{CacheState};
    ghost use Rattle.page_cache.specs.Sound.{cache_of, IsSound};

    ghost Value = { CacheState };

    ghost view = { λ cache. cache_of cache.links cache.frames.items cache.disk.items };

    ghost invariant = { λ cache. IsSound cache.links cache.frames.items cache.disk.items };
}

impl PageCache {
    /// So many frames, all free and rising, and so many pages, of which page p has value p and stamp 0. An error
    /// comes only where memory is refused. No other call takes memory.
    pub fn new(alloc: Global, frames: u16, pages: u16) -> Result<PageCache, OutOfMemory>
        requires frames { frames ≤ FRAMES }
        requires pages { pages ≤ PAGES }
        ensures cache { IfOk result (λ cache. cache ≡ new_cache frames pages) }
        ensures size { IfOk result (λ cache. IsOfSize cache frames pages) }
    {
        let links = Links::new(alloc, frames, 3)?;
        let none = vec![in alloc; None; usize::from(frames)]?;
        let disk = first_pages(alloc, pages)?;
        Ok(PageCache {
            links,
            frames: none,
            disk,
        })
    }

    /// Replies the frame that holds page `p`, and the greatest number where none does.
    pub fn find(&self, p: u64) -> u64
        ensures reply { result ≡ (find self.now p).reply }
        ensures after { (find self.now p).after ≡ self.now }
    {
        match self.frame_of(p) {
            Some(frame) => u64::from(frame),
            None => u64::MAX,
        }
    }

    /// Gives page `p` a frame, if it has none: the first that is free, or else the first that is clean. Replies the
    /// frame, and the greatest number where all frames are dirty.
    pub fn claim(&mut self, p: u64) -> u64
        ensures reply { result ≡ (claim self.old p).reply }
        ensures after { self.new ≡ (claim self.old p).after }
        ensures same_size { HasSameSize self.old self.new }
    {
        let Some(page) = self.page_no(p) else {
            return u64::MAX;
        };
        if let Some(frame) = self.frame_of(p) {
            return u64::from(frame);
        }
        let empty = Content { value: 0, stamp: 0 };
        if let Some(frame) = self.first(FREE) {
            self.take(frame, page, empty);
            return u64::from(frame);
        }
        if let Some(frame) = self.first(CLEAN) {
            self.take(frame, page, empty);
            return u64::from(frame);
        }
        u64::MAX
    }

    /// Gives a clean frame that holds page `p` what the disk has of it. Replies 0, and 1 where the frame isn't such
    /// a one.
    pub fn fill(&mut self, f: u64, p: u64) -> u64
        ensures reply { result ≡ (fill self.old f p).reply }
        ensures after { self.new ≡ (fill self.old f p).after }
        ensures same_size { HasSameSize self.old self.new }
    {
        let Some(frame) = self.frame_no(f) else {
            return u64::MAX;
        };
        let Some(page) = self.page_no(p) else {
            return u64::MAX;
        };
        match self.clean_in(frame) {
            Some(held) if held.page == page => {
                let content = self.on_disk(page);
                self.put(frame, page, content);
                0
            }
            _ => 1,
        }
    }

    /// Replies the value of a frame that isn't free. A clean frame is then the last of the clean ones.
    pub fn read(&mut self, f: u64) -> u64
        ensures reply { result ≡ (read self.old f).reply }
        ensures after { self.new ≡ (read self.old f).after }
        ensures same_size { HasSameSize self.old self.new }
    {
        let Some(frame) = self.frame_no(f) else {
            return u64::MAX;
        };
        if let Some(held) = self.clean_in(frame) {
            self.to_clean(frame);
            return held.content.value;
        }
        match self.dirty_in(frame) {
            Some(held) => held.content.value,
            None => u64::MAX,
        }
    }

    /// Gives a frame that isn't free the value `v` and the stamp `n`. A clean frame is then the last of the dirty
    /// ones. Replies 0, and 1 where the frame is free.
    pub fn write(&mut self, f: u64, v: u64, n: u64) -> u64
        ensures reply { result ≡ (write self.old f v n).reply }
        ensures after { self.new ≡ (write self.old f v n).after }
        ensures same_size { HasSameSize self.old self.new }
    {
        let Some(frame) = self.frame_no(f) else {
            return u64::MAX;
        };
        let content = Content { value: v, stamp: n };
        if let Some(held) = self.clean_in(frame) {
            self.put(frame, held.page, content);
            self.to_dirty(frame);
            return 0;
        }
        if let Some(held) = self.dirty_in(frame) {
            self.put(frame, held.page, content);
            return 0;
        }
        1
    }

    /// Replies the dirty frame that was written first, and the greatest number where no frame is dirty.
    pub fn oldest(&self) -> u64
        ensures reply { result ≡ (oldest self.now).reply }
        ensures after { (oldest self.now).after ≡ self.now }
    {
        match self.first(DIRTY) {
            Some(frame) => u64::from(frame),
            None => u64::MAX,
        }
    }

    /// Replies the stamp of a frame that isn't free.
    pub fn stamp(&self, f: u64) -> u64
        ensures reply { result ≡ (stamp self.now f).reply }
        ensures after { (stamp self.now f).after ≡ self.now }
    {
        match self.frames.get(f as usize).copied().flatten() {
            Some(held) => held.content.stamp,
            None => u64::MAX,
        }
    }

    /// Gives a dirty frame's page on the disk what the frame holds. The frame is then the last of the clean ones.
    /// Replies 0, and 1 where the frame isn't dirty.
    pub fn flush(&mut self, f: u64) -> u64
        ensures reply { result ≡ (flush self.old f).reply }
        ensures after { self.new ≡ (flush self.old f).after }
        ensures same_size { HasSameSize self.old self.new }
    {
        let Some(frame) = self.frame_no(f) else {
            return u64::MAX;
        };
        match self.dirty_in(frame) {
            Some(held) => {
                self.store(held);
                self.to_clean(frame);
                0
            }
            None => 1,
        }
    }

    /// The lists of the frames: list 0 is free, 1 clean and 2 dirty. Each frame is in one of them, and no two frames
    /// hold one page.
    pub fn links(&self) -> &Links
        ensures lists { result.now ≡ lists_of self.now }
        ensures sound { IsSound (lists_of self.now) self.now.frames self.now.disk }
    {
        &self.links
    }

    /// The free frames.
    pub fn free(&self) -> Vec16
        ensures list { result ≡ self.now.free }
        ensures within { All (λ frame. frame < length self.now.frames) result }
    {
        listed(&self.links, FREE)
    }

    /// The clean frames, the least recently used first.
    pub fn clean(&self) -> Vec16
        ensures list { result ≡ self.now.clean }
        ensures within { All (λ frame. frame < length self.now.frames) result }
    {
        listed(&self.links, CLEAN)
    }

    /// The dirty frames, the first written first.
    pub fn dirty(&self) -> Vec16
        ensures list { result ≡ self.now.dirty }
        ensures within { All (λ frame. frame < length self.now.frames) result }
    {
        listed(&self.links, DIRTY)
    }

    /// The page, the value and the stamp of a frame. None exactly where it is free.
    pub fn frame(&self, f: u16) -> Option<(u16, u64, u64)>
        requires { f < length self.now.frames }
        ensures frame { result ≡ option_map (λ held. (held.page, held.content.value, held.content.stamp)) (held_in self.now f) }
        ensures free { is_none result ≡ has f self.now.free }
    {
        match self.frames[usize::from(f)] {
            Some(held) => Some((held.page, held.content.value, held.content.stamp)),
            None => None,
        }
    }

    /// The value and the stamp of a page on the disk.
    pub fn page(&self, p: u16) -> (u64, u64)
        requires { p < length self.now.disk }
        ensures value { result.0 ≡ (on_disk self.now p).value }
        ensures stamp { result.1 ≡ (on_disk self.now p).stamp }
    {
        let content = self.on_disk(p);
        (content.value, content.stamp)
    }

    // The frame of this number. None where there is no such frame.
    fn frame_no(&self, f: u64) -> Option<u16>
        ensures some { IfSome result (λ frame. (frame ≡ f) × (f < length self.now.frames)) }
        ensures past { is_none result ≡ is_past self.now.frames f }
    {
        if f < self.frames.len() as u64 {
            Some(f as u16)
        } else {
            None
        }
    }

    // The page of this number. None where there is no such page.
    fn page_no(&self, p: u64) -> Option<u16>
        ensures some { IfSome result (λ page. (page ≡ p) × (p < length self.now.disk)) }
        ensures past { is_none result ≡ is_past self.now.disk p }
    {
        if p < self.disk.len() as u64 {
            Some(p as u16)
        } else {
            None
        }
    }

    // The frame that holds a page.
    fn frame_of(&self, page: u64) -> Option<u16>
        ensures { result ≡ frame_of self.now page }
    {
        for frame in 0..self.frames.len() {
            if holds(self.frames[frame], page) {
                return Some(frame as u16);
            }
        }
        None
    }

    // The first frame of a list of the links.
    fn first(&self, list: u8) -> Option<u16>
        requires { list < 3 }
        ensures first { result ≡ slice_get (list_at (lists_of self.now) list) 0 }
        ensures within { IfSome result (λ frame. frame < length self.now.frames) }
    {
        self.links.first(list)
    }

    // What a frame holds, if it is clean.
    fn clean_in(&self, frame: u16) -> Option<Held>
        requires { frame < length self.now.frames }
        ensures clean { result ≡ clean_in self.now frame }
        ensures held { IfSome result (λ held. held_in self.now frame ≡ Some held) }
        ensures not_free { IfSome result (λ _. has frame self.now.free ≡ false) }
    {
        if self.links.list_of(frame) == CLEAN {
            self.frames[usize::from(frame)]
        } else {
            None
        }
    }

    // What a frame holds, if it is dirty.
    fn dirty_in(&self, frame: u16) -> Option<Held>
        requires { frame < length self.now.frames }
        ensures dirty { result ≡ dirty_in self.now frame }
        ensures held { IfSome result (λ held. held_in self.now frame ≡ Some held) }
        ensures on_disk { IfSome result (λ held. held.page < length self.now.disk) }
        ensures not_free { IfSome result (λ _. has frame self.now.free ≡ false) }
    {
        if self.links.list_of(frame) == DIRTY {
            self.frames[usize::from(frame)]
        } else {
            None
        }
    }

    // What the disk has of a page.
    fn on_disk(&self, page: u16) -> Content
        requires { page < length self.now.disk }
        ensures { result ≡ on_disk self.now page }
    {
        self.disk[usize::from(page)]
    }

    // The frame leaves its list and is last of clean.
    fn to_clean(&mut self, frame: u16)
        requires frame { frame < length self.old.frames }
        requires held { has frame self.old.free ≡ false }
        ensures { self.new ≡ last_of_clean self.old frame }
    {
        self.links.to_back(CLEAN, frame);
    }

    // The frame leaves its list and is last of dirty.
    fn to_dirty(&mut self, frame: u16)
        requires frame { frame < length self.old.frames }
        requires held { has frame self.old.free ≡ false }
        ensures { self.new ≡ last_of_dirty self.old frame }
    {
        self.links.to_back(DIRTY, frame);
    }

    // The frame has this content of the page that it holds.
    fn put(&mut self, frame: u16, page: u16, content: Content)
        requires frame { frame < length self.old.frames }
        requires held { holds page (held_in self.old frame) ≡ true }
        ensures { self.new ≡ holding self.old frame page content }
    {
        self.frames[usize::from(frame)] = Some(Held { page, content });
    }

    // The disk has what is held of a page.
    fn store(&mut self, held: Held)
        requires { held.page < length self.old.disk }
        ensures { self.new ≡ stored self.old held }
    {
        self.disk[usize::from(held.page)] = held.content;
    }

    // The frame holds a page that no other holds, and is last of clean.
    fn take(&mut self, frame: u16, page: u16, content: Content)
        requires frame { frame < length self.old.frames }
        requires page { page < length self.old.disk }
        requires apart { frame_of self.old page ≡ None }
        ensures { self.new ≡ last_of_clean (holding self.old frame page content) frame }
    {
        self.frames[usize::from(frame)] = Some(Held { page, content });
        self.links.to_back(CLEAN, frame);
    }
}

// Whether this page is held.
fn holds(held: Option<Held>, page: u64) -> bool
    ensures { result ≡ holds page held }
{
    match held {
        Some(held) => u64::from(held.page) == page,
        None => false,
    }
}

// The pages of a disk as a test begins.
fn first_pages(alloc: Global, pages: u16) -> Result<Vec<Content>, OutOfMemory>
    ensures { IfOk result (λ disk. disk.items ≡ map new_page (range_with_len 0 pages)) }
{
    let mut disk = Vec::with_capacity(alloc, usize::from(pages))?;
    for page in 0..pages {
        disk.push(Content {
            value: u64::from(page),
            stamp: 0,
        })?;
    }
    Ok(disk)
}

#[cfg(test)]
mod tests;
