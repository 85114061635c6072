use super::*;
use event_class::Event;
use std::test::Fail;
use test_world::WorldSize;

#[test]
fn the_world_has_its_lines(rt: HostRuntime) -> Result<(), Fail> {
    let size = WorldSize {
        cells: 3,
        locks: 2,
        frames: 0,
        pages: 0,
        slots: 0,
    };
    let mut world = World::new(rt.alloc(), &size)?;
    let thread = ThreadNo::new(12).unwrap();
    world.apply(thread, &Event::Store { c: 2, v: 50 });
    world.apply(thread, &Event::Check { a: 1, b: 2 });
    let acquire = Event::Acquire { l: 1 };
    if world.enabled(&acquire) {
        world.apply(thread, &acquire);
    }
    let mut text = Vec::new(rt.alloc());
    push_world_lines(&mut text, &world)?;
    let lines = b"cells 0 0 50\nlocks - 12\nfree\nclean\ndirty\npages\nslots\nmark 0\nchecks 1\n";
    assert_eq!(rt; text.as_slice(), &lines[..]);
    Ok(())
}
