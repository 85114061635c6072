ghost use Rattle.std.specs.Prelude.{◌≡◌, ◌≤◌};
ghost use Rattle.surw_base.specs.declared.limits.TheConstants.{FRAMES, PAGES, SLOTS};

use super::*;
use std::test::Fail;

mod cache_events;
mod log_events;
mod monitors;

const MAX: u64 = u64::MAX;

fn size_of(cells: u16, locks: u16) -> WorldSize
    ensures { result ≡ record { cells = cells; locks = locks; frames = 0; pages = 0; slots = 0 } }
{
    WorldSize {
        cells,
        locks,
        frames: 0,
        pages: 0,
        slots: 0,
    }
}

// A world with so many frames, pages and slots, and nothing else.
fn devices(alloc: Global, frames: u16, pages: u16, slots: u16) -> Result<World, OutOfMemory>
    requires frames { frames ≤ FRAMES }
    requires pages { pages ≤ PAGES }
    requires slots { slots ≤ SLOTS }
{
    let size = WorldSize {
        cells: 0,
        locks: 0,
        frames,
        pages,
        slots,
    };
    World::new(alloc, &size)
}

// The place of the first event that isn't enabled, or to which the world doesn't reply so.
fn first_wrong(world: &mut World, rows: &[(Event, u64)]) -> Option<usize> {
    let thread = ThreadNo::new(0)?;
    for (i, (event, reply)) in rows.iter().enumerate() {
        if !world.enabled(event) || world.apply(thread, event) != *reply {
            return Some(i);
        }
    }
    None
}

#[test]
fn events_reply_and_change_by_the_table(rt: HostRuntime) -> Result<(), Fail> {
    let rows = [
        (0, Event::Load { c: 1 }, 0),
        (0, Event::Store { c: 1, v: 5 }, 0),
        (1, Event::Load { c: 1 }, 5),
        (0, Event::Add { c: 1, v: MAX }, 5),
        (0, Event::SwapIf { c: 1, a: 5, b: 7 }, 4),
        (0, Event::SwapIf { c: 1, a: 4, b: 9 }, 4),
        (0, Event::Add { c: 1, v: 1 }, 9),
        (0, Event::Load { c: 2 }, MAX),
        (0, Event::Store { c: 2, v: 1 }, MAX),
        (0, Event::Add { c: 65537, v: 1 }, MAX),
        (0, Event::SwapIf { c: MAX, a: 0, b: 1 }, MAX),
        (1, Event::Acquire { l: 0 }, 0),
        (0, Event::Acquire { l: 1 }, 0),
        (0, Event::Release { l: 0 }, 1),
        (0, Event::Release { l: 1 }, 0),
        (0, Event::Release { l: 1 }, 1),
        (0, Event::Acquire { l: 2 }, MAX),
        (0, Event::Release { l: 2 }, MAX),
        (0, Event::Check { a: 3, b: 3 }, 0),
        (0, Event::Check { a: 3, b: 4 }, 1),
        (1, Event::Check { a: 4, b: 3 }, 1),
    ];
    let mut world = World::new(rt.alloc(), &size_of(2, 2))?;
    for (i, (number, event, reply)) in rows.iter().enumerate() {
        let thread = ThreadNo::new(*number).expect(&rt, "below the most threads");
        assert!(rt; world.enabled(event), "at {i}");
        assert_eq!(rt; world.apply(thread, event), *reply, "at {i}");
    }
    assert!(rt; world.size().cells == 2 && world.size().locks == 2);
    assert_eq!(rt; [world.cell(0), world.cell(1)], [0, 10]);
    assert_eq!(rt; world.holder(0), ThreadNo::new(1));
    assert_eq!(rt; world.holder(1), None);
    assert_eq!(rt; world.checks(), 2);
    Ok(())
}

#[test]
fn a_world_without_anything(rt: HostRuntime) -> Result<(), Fail> {
    let rows = [
        (Event::Load { c: 0 }, MAX),
        (Event::Acquire { l: 0 }, MAX),
        (Event::Find { p: 0 }, MAX),
        (Event::Claim { p: 0 }, MAX),
        (Event::Fill { f: 0, p: 0 }, MAX),
        (Event::Read { f: 0 }, MAX),
        (Event::Write { f: 0, v: 1, n: 1 }, MAX),
        (Event::Oldest, MAX),
        (Event::Stamp { f: 0 }, MAX),
        (Event::Flush { f: 0 }, MAX),
        (Event::Reserve, 0),
        (Event::Put { s: 0, v: 1 }, MAX),
        (Event::Put { s: 1, v: 1 }, MAX),
        (Event::Mark { n: 0 }, 0),
        (Event::Mark { n: 1 }, MAX),
        (Event::Durable, 0),
    ];
    let mut world = World::new(rt.alloc(), &size_of(0, 0))?;
    let thread = ThreadNo::new(0).expect(&rt, "thread 0");
    for (i, (event, reply)) in rows.iter().enumerate() {
        assert!(rt; world.enabled(event), "at {i}");
        assert_eq!(rt; world.apply(thread, event), *reply, "at {i}");
    }
    Ok(())
}

#[test]
fn a_held_lock_is_enabled_for_nobody(rt: HostRuntime) -> Result<(), Fail> {
    let acquire = Event::Acquire { l: 0 };
    let mut world = World::new(rt.alloc(), &size_of(0, 1))?;
    let thread = ThreadNo::new(3).expect(&rt, "thread 3");
    assert!(rt; world.enabled(&acquire));
    world.apply(thread, &acquire);
    assert!(rt; !world.enabled(&acquire));
    assert!(rt; world.enabled(&Event::Release { l: 0 }));
    assert!(rt; world.enabled(&Event::Acquire { l: 1 }));
    Ok(())
}
