use super::{MAX, devices, first_wrong};
use event_class::Event;
use std::test::Fail;

#[test]
fn free_frames(rt: HostRuntime) -> Result<(), Fail> {
    let mut world = devices(rt.alloc(), 2, 3, 0)?;
    let rows = [
        (Event::Find { p: 0 }, MAX),
        (Event::Find { p: 3 }, MAX),
        (Event::Claim { p: 3 }, MAX),
        (Event::Fill { f: 0, p: 0 }, 1),
        (Event::Fill { f: 2, p: 0 }, MAX),
        (Event::Fill { f: 0, p: 3 }, MAX),
        (Event::Read { f: 0 }, MAX),
        (Event::Read { f: 2 }, MAX),
        (Event::Write { f: 0, v: 5, n: 1 }, 1),
        (Event::Write { f: 2, v: 5, n: 1 }, MAX),
        (Event::Oldest, MAX),
        (Event::Stamp { f: 0 }, MAX),
        (Event::Stamp { f: 2 }, MAX),
        (Event::Flush { f: 0 }, 1),
        (Event::Flush { f: 2 }, MAX),
    ];
    assert_eq!(rt; first_wrong(&mut world, &rows), None);
    Ok(())
}

#[test]
fn clean_frames(rt: HostRuntime) -> Result<(), Fail> {
    let mut world = devices(rt.alloc(), 2, 3, 0)?;
    let rows = [
        (Event::Claim { p: 2 }, 0),
        (Event::Claim { p: 1 }, 1),
        (Event::Claim { p: 2 }, 0),
        (Event::Find { p: 1 }, 1),
        (Event::Read { f: 0 }, 0),
        (Event::Fill { f: 0, p: 2 }, 0),
        (Event::Read { f: 0 }, 2),
        (Event::Fill { f: 0, p: 1 }, 1),
        (Event::Stamp { f: 0 }, 0),
        (Event::Oldest, MAX),
        (Event::Flush { f: 0 }, 1),
        // Frame 0 was read last, so frame 1 is claimed.
        (Event::Claim { p: 0 }, 1),
        (Event::Find { p: 1 }, MAX),
    ];
    assert_eq!(rt; first_wrong(&mut world, &rows), None);
    Ok(())
}

#[test]
fn dirty_frames(rt: HostRuntime) -> Result<(), Fail> {
    let mut world = devices(rt.alloc(), 2, 3, 0)?;
    let rows = [
        (Event::Claim { p: 0 }, 0),
        (Event::Claim { p: 1 }, 1),
        (Event::Write { f: 1, v: 7, n: 4 }, 0),
        (Event::Write { f: 0, v: 8, n: 5 }, 0),
        (Event::Write { f: 1, v: 9, n: 6 }, 0),
        (Event::Read { f: 1 }, 9),
        (Event::Stamp { f: 1 }, 6),
        (Event::Fill { f: 1, p: 1 }, 1),
        (Event::Find { p: 1 }, 1),
        (Event::Claim { p: 1 }, 1),
        (Event::Claim { p: 2 }, MAX),
        (Event::Oldest, 1),
        (Event::Flush { f: 1 }, 0),
        (Event::Flush { f: 1 }, 1),
        (Event::Oldest, 0),
    ];
    assert_eq!(rt; first_wrong(&mut world, &rows), None);
    Ok(())
}

#[test]
fn a_flushed_page_is_filled_from_the_disk(rt: HostRuntime) -> Result<(), Fail> {
    let mut world = devices(rt.alloc(), 1, 2, 0)?;
    let rows = [
        (Event::Claim { p: 1 }, 0),
        (Event::Write { f: 0, v: 9, n: 6 }, 0),
        (Event::Flush { f: 0 }, 0),
        (Event::Claim { p: 0 }, 0),
        (Event::Claim { p: 1 }, 0),
        (Event::Read { f: 0 }, 0),
        (Event::Fill { f: 0, p: 1 }, 0),
        (Event::Read { f: 0 }, 9),
        (Event::Stamp { f: 0 }, 6),
    ];
    assert_eq!(rt; first_wrong(&mut world, &rows), None);
    assert_eq!(rt; world.cache().find(1), 0);
    Ok(())
}
