use super::*;
use event_class::Event;
use std::test::Fail;
use surw_base::ThreadNo;
use test_world::WorldSize;

#[test]
fn the_frames_and_the_pages_have_their_lines(rt: HostRuntime) -> Result<(), Fail> {
    let size = WorldSize {
        cells: 0,
        locks: 0,
        frames: 3,
        pages: 2,
        slots: 0,
    };
    let mut world = World::new(rt.alloc(), &size)?;
    make(&mut world, &Event::Claim { p: 1 });
    make(&mut world, &Event::Write { f: 0, v: 40, n: 7 });
    make(&mut world, &Event::Flush { f: 0 });
    make(&mut world, &Event::Claim { p: 0 });
    make(&mut world, &Event::Write { f: 1, v: 50, n: 8 });
    let mut text = Vec::new(rt.alloc());
    push_cache_lines(&mut text, &world)?;
    let lines = b"free 2\nclean 0:1/40/7\ndirty 1:0/50/8\npages 0/0 40/7\n";
    assert_eq!(rt; text.as_slice(), &lines[..]);
    Ok(())
}

// Makes an event, if it can be made.
fn make(world: &mut World, event: &Event) {
    if world.enabled(event) {
        world.apply(ThreadNo::new(0).unwrap(), event);
    }
}
