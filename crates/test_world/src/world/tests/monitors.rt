use super::{devices, size_of};
use crate::{Monitor, World};
use event_class::Event;
use std::test::Fail;
use surw_base::ThreadNo;

#[test]
fn cells_and_checks(rt: HostRuntime) -> Result<(), Fail> {
    let mut world = World::new(rt.alloc(), &size_of(1, 0))?;
    let zero = Monitor::CellEnd { cell: 0, value: 0 };
    let one = Monitor::CellEnd { cell: 0, value: 1 };
    assert!(rt; !world.failing(&zero) && world.failing(&one));
    assert!(rt; !world.failing(&Monitor::Expect));
    let thread = ThreadNo::new(0).expect(&rt, "thread 0");
    world.apply(thread, &Event::Check { a: 1, b: 2 });
    assert!(rt; world.failing(&Monitor::Expect));
    Ok(())
}

// The place of the first event that isn't enabled, or after which the monitors of the log don't fail or hold so.
fn first_wrong(world: &mut World, rows: &[(Event, bool, bool)]) -> Option<usize> {
    let thread = ThreadNo::new(0)?;
    for (i, (event, write_ahead, log_whole)) in rows.iter().enumerate() {
        if !world.enabled(event) {
            return Some(i);
        }
        world.apply(thread, event);
        let failing = (
            world.failing(&Monitor::WriteAhead),
            world.failing(&Monitor::LogWhole),
        );
        if failing != (*write_ahead, *log_whole) {
            return Some(i);
        }
    }
    None
}

#[test]
fn write_ahead_fails_while_a_stamp_is_above_the_mark(rt: HostRuntime) -> Result<(), Fail> {
    let mut world = devices(rt.alloc(), 2, 2, 1)?;
    let rows = [
        (Event::Claim { p: 0 }, false, false),
        (Event::Claim { p: 1 }, false, false),
        (Event::Write { f: 0, v: 8, n: 1 }, false, false),
        (Event::Flush { f: 0 }, true, false),
        (Event::Write { f: 1, v: 7, n: 0 }, true, false),
        // The other page is still ahead.
        (Event::Flush { f: 1 }, true, false),
        (Event::Reserve, true, false),
        (Event::Put { s: 1, v: 8 }, true, false),
        (Event::Mark { n: 0 }, true, false),
        // A stamp isn't above a mark that is the same.
        (Event::Mark { n: 1 }, false, false),
        (Event::Write { f: 0, v: 9, n: 2 }, false, false),
        (Event::Flush { f: 0 }, true, false),
        (Event::Write { f: 0, v: 9, n: 1 }, true, false),
        (Event::Flush { f: 0 }, false, false),
    ];
    assert_eq!(rt; first_wrong(&mut world, &rows), None);
    Ok(())
}

#[test]
fn log_whole_fails_while_a_slot_up_to_the_mark_is_empty(rt: HostRuntime) -> Result<(), Fail> {
    let mut world = devices(rt.alloc(), 0, 0, 2)?;
    let rows = [
        (Event::Reserve, false, false),
        (Event::Reserve, false, false),
        (Event::Put { s: 2, v: 5 }, false, false),
        (Event::Mark { n: 1 }, false, true),
        (Event::Mark { n: 2 }, false, true),
        (Event::Put { s: 1, v: 4 }, false, false),
    ];
    assert_eq!(rt; first_wrong(&mut world, &rows), None);
    Ok(())
}
