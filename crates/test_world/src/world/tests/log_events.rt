use super::{MAX, devices, first_wrong};
use event_class::Event;
use std::test::Fail;

#[test]
fn slots_are_reserved_and_filled(rt: HostRuntime) -> Result<(), Fail> {
    let mut world = devices(rt.alloc(), 0, 0, 2)?;
    let rows = [
        (Event::Put { s: 0, v: 5 }, MAX),
        (Event::Put { s: 3, v: 5 }, MAX),
        (Event::Put { s: 1, v: 5 }, 1),
        (Event::Reserve, 1),
        (Event::Put { s: 1, v: 5 }, 0),
        (Event::Put { s: 1, v: 6 }, 1),
        (Event::Reserve, 2),
        (Event::Reserve, 0),
    ];
    assert_eq!(rt; first_wrong(&mut world, &rows), None);
    assert_eq!(rt; world.log().reserved(), 2);
    Ok(())
}

#[test]
fn the_mark_only_rises(rt: HostRuntime) -> Result<(), Fail> {
    let mut world = devices(rt.alloc(), 0, 0, 2)?;
    let rows = [
        (Event::Durable, 0),
        (Event::Mark { n: 3 }, MAX),
        (Event::Mark { n: 1 }, 1),
        (Event::Mark { n: 0 }, 0),
        (Event::Reserve, 1),
        (Event::Mark { n: 2 }, 1),
        (Event::Mark { n: 1 }, 0),
        (Event::Durable, 1),
        (Event::Mark { n: 0 }, 0),
        (Event::Durable, 1),
    ];
    assert_eq!(rt; first_wrong(&mut world, &rows), None);
    Ok(())
}
