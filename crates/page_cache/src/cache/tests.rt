ghost use Rattle.page_cache.specs.Cache.{HasSameSize};

use super::*;
use std::test::Fail;

const MAX: u64 = u64::MAX;

#[derive(Clone, Copy)]
enum Event {
    Find(u64),
    Claim(u64),
    Fill(u64, u64),
    Read(u64),
    Write(u64, u64, u64),
    Oldest,
    Stamp(u64),
    Flush(u64),
}

type Row = (Event, u64, &'static [u16], &'static [u16]);

fn make(cache: &mut PageCache, event: &Event) -> u64
    ensures { HasSameSize cache.old cache.new }
{
    match *event {
        Event::Find(p) => cache.find(p),
        Event::Claim(p) => cache.claim(p),
        Event::Fill(f, p) => cache.fill(f, p),
        Event::Read(f) => cache.read(f),
        Event::Write(f, v, n) => cache.write(f, v, n),
        Event::Oldest => cache.oldest(),
        Event::Stamp(f) => cache.stamp(f),
        Event::Flush(f) => cache.flush(f),
    }
}

fn is(list: &Vec16, frames: &[u16]) -> bool {
    if list.len() != frames.len() {
        return false;
    }
    for (i, frame) in frames.iter().enumerate() {
        if list.at(i) != *frame {
            return false;
        }
    }
    true
}

// The place of the first row that the cache doesn't follow. A row is an event, its reply, and then the clean and the
// dirty frames.
fn first_wrong(cache: &mut PageCache, rows: &[Row]) -> Option<usize>
    ensures { HasSameSize cache.old cache.new }
{
    for (i, (event, reply, clean, dirty)) in rows.iter().enumerate() {
        if make(cache, event) != *reply
            || !is(&cache.clean(), clean)
            || !is(&cache.dirty(), dirty)
        {
            return Some(i);
        }
    }
    None
}

#[test]
fn events_reply_and_change_by_the_table(rt: HostRuntime) -> Result<(), Fail> {
    let mut cache = PageCache::new(rt.alloc(), 2, 3)?;
    // A free frame holds nothing.
    assert_eq!(rt;
        first_wrong(
            &mut cache,
            &[
                (Event::Find(0), MAX, &[], &[]),
                (Event::Oldest, MAX, &[], &[]),
                (Event::Claim(3), MAX, &[], &[]),
                (Event::Fill(0, 0), 1, &[], &[]),
                (Event::Read(0), MAX, &[], &[]),
                (Event::Write(0, 5, 1), 1, &[], &[]),
                (Event::Stamp(0), MAX, &[], &[]),
                (Event::Flush(0), 1, &[], &[]),
            ]
        ),
        None
    );
    // The free frames are claimed first; a page that has a frame keeps it, and the frame its place.
    assert_eq!(rt;
        first_wrong(
            &mut cache,
            &[
                (Event::Claim(0), 0, &[0], &[]),
                (Event::Claim(1), 1, &[0, 1], &[]),
                (Event::Claim(0), 0, &[0, 1], &[]),
                (Event::Find(0), 0, &[0, 1], &[]),
                (Event::Find(3), MAX, &[0, 1], &[]),
                (Event::Fill(1, 1), 0, &[0, 1], &[]),
                (Event::Fill(1, 0), 1, &[0, 1], &[]),
                (Event::Fill(2, 1), MAX, &[0, 1], &[]),
                (Event::Fill(1, 3), MAX, &[0, 1], &[]),
                (Event::Flush(1), 1, &[0, 1], &[]),
                (Event::Read(0), 0, &[1, 0], &[]),
                (Event::Read(1), 1, &[0, 1], &[]),
                (Event::Read(2), MAX, &[0, 1], &[]),
                (Event::Stamp(1), 0, &[0, 1], &[]),
            ]
        ),
        None
    );
    // The clean frame that was used first is claimed.
    assert_eq!(rt;
        first_wrong(
            &mut cache,
            &[
                (Event::Claim(2), 0, &[1, 0], &[]),
                (Event::Find(0), MAX, &[1, 0], &[]),
                (Event::Find(2), 0, &[1, 0], &[]),
            ]
        ),
        None
    );
    // Dirty frames keep their places, and aren't claimed or filled.
    assert_eq!(rt;
        first_wrong(
            &mut cache,
            &[
                (Event::Write(0, 8, 5), 0, &[1], &[0]),
                (Event::Write(1, 7, 4), 0, &[], &[0, 1]),
                (Event::Write(0, 9, 6), 0, &[], &[0, 1]),
                (Event::Write(2, 1, 1), MAX, &[], &[0, 1]),
                (Event::Read(0), 9, &[], &[0, 1]),
                (Event::Fill(1, 1), 1, &[], &[0, 1]),
                (Event::Claim(0), MAX, &[], &[0, 1]),
                (Event::Claim(1), 1, &[], &[0, 1]),
                (Event::Oldest, 0, &[], &[0, 1]),
                (Event::Stamp(0), 6, &[], &[0, 1]),
                (Event::Stamp(1), 4, &[], &[0, 1]),
                (Event::Stamp(2), MAX, &[], &[0, 1]),
            ]
        ),
        None
    );
    // Flushed frames are clean, used last; the page has then what the frame held.
    assert_eq!(rt;
        first_wrong(
            &mut cache,
            &[
                (Event::Flush(2), MAX, &[], &[0, 1]),
                (Event::Flush(1), 0, &[1], &[0]),
                (Event::Flush(1), 1, &[1], &[0]),
                (Event::Stamp(1), 4, &[1], &[0]),
                (Event::Oldest, 0, &[1], &[0]),
                (Event::Flush(0), 0, &[1, 0], &[]),
                (Event::Claim(0), 1, &[0, 1], &[]),
                (Event::Fill(1, 0), 0, &[0, 1], &[]),
            ]
        ),
        None
    );
    // Numbers past 16 bits are past the sizes.
    assert_eq!(rt;
        first_wrong(
            &mut cache,
            &[
                (Event::Find(65536), MAX, &[0, 1], &[]),
                (Event::Claim(65536), MAX, &[0, 1], &[]),
                (Event::Fill(65537, 0), MAX, &[0, 1], &[]),
                (Event::Fill(1, 65536), MAX, &[0, 1], &[]),
                (Event::Read(65536), MAX, &[0, 1], &[]),
                (Event::Write(65536, 1, 1), MAX, &[0, 1], &[]),
                (Event::Stamp(65537), MAX, &[0, 1], &[]),
                (Event::Flush(MAX), MAX, &[0, 1], &[]),
            ]
        ),
        None
    );
    assert_eq!(rt; cache.links().first(1), Some(0));
    assert_eq!(rt;
        [cache.frame(0), cache.frame(1)],
        [Some((2, 9, 6)), Some((0, 0, 0))]
    );
    assert_eq!(rt;
        [cache.page(0), cache.page(1), cache.page(2)],
        [(0, 0), (7, 4), (9, 6)]
    );
    Ok(())
}

#[test]
fn claims_the_clean_frame_that_was_used_first(rt: HostRuntime) -> Result<(), Fail> {
    let mut cache = PageCache::new(rt.alloc(), 2, 3)?;
    assert!(rt; is(&cache.free(), &[0, 1]) && cache.frame(0).is_none());
    assert_eq!(rt;
        [
            cache.claim(0),
            cache.claim(1),
            cache.read(0),
            cache.claim(2)
        ],
        [0, 1, 0, 1]
    );
    assert!(rt; is(&cache.clean(), &[0, 1]));
    Ok(())
}
