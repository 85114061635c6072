ghost use Rattle.std.specs.Prelude.{◌≤◌};

use super::*;
use crate::{AnyRoutine, Shape};
use std::test::Fail;

// Tells the replies to a routine, as long as it announces an event.
fn tell<R: Routine>(routine: &mut R, replies: &[u64]) {
    for reply in replies {
        if routine.announce().is_some() {
            routine.take(*reply);
        }
    }
}

const LOAD: Line = Line::Act {
    shape: Shape::Load { c: Operand::Num(0) },
    into: Some(0),
};

const STORE: Line = Line::Act {
    shape: Shape::Store {
        c: Operand::Num(1),
        v: Operand::Reg(0),
    },
    into: None,
};

const PLUS: Line = Line::Plus {
    reg: 0,
    by: Operand::Num(2),
};

#[test]
fn registers_stay_at_the_next_time_round(rt: HostRuntime) -> Result<(), Fail> {
    let lines = Lines::new(rt.alloc(), Vec::from_slice(rt.alloc(), &[STORE, PLUS])?)?;
    let mut steps = AnyRoutine::Steps(Steps::new(lines, 3));
    assert_eq!(rt; steps.announce(), Some(Event::Store { c: 1, v: 0 }));
    tell(&mut steps, &[0]);
    assert_eq!(rt; steps.announce(), Some(Event::Store { c: 1, v: 2 }));
    let mut copy = steps.copy(rt.alloc())?;
    tell(&mut copy, &[0]);
    assert_eq!(rt; copy.announce(), Some(Event::Store { c: 1, v: 4 }));
    tell(&mut steps, &[0, 0]);
    assert_eq!(rt; steps.announce(), None);
    Ok(())
}

#[test]
fn a_reply_goes_into_its_register(rt: HostRuntime) -> Result<(), Fail> {
    let lines = Lines::new(
        rt.alloc(),
        Vec::from_slice(rt.alloc(), &[LOAD, PLUS, STORE])?,
    )?;
    let mut steps = Steps::new(lines, 1);
    assert_eq!(rt; steps.announce(), Some(Event::Load { c: 0 }));
    tell(&mut steps, &[u64::MAX]);
    assert_eq!(rt; steps.announce(), Some(Event::Store { c: 1, v: 1 }));
    tell(&mut steps, &[0]);
    assert_eq!(rt; steps.announce(), None);
    Ok(())
}

// What a routine of a load, a skip and two further events announces after the load's reply.
fn after_skip(rt: &HostRuntime, over: u16, equal: bool, reply: u64) -> Result<Option<Event>, Fail>
    requires { over ≤ 256 }
{
    let skip = Line::Skip {
        over,
        reg: 0,
        equal,
        with: Operand::Num(5),
    };
    let lines = Lines::new(
        rt.alloc(),
        Vec::from_slice(rt.alloc(), &[LOAD, skip, STORE, LOAD])?,
    )?;
    let mut steps = Steps::new(lines, 1);
    tell(&mut steps, &[reply]);
    Ok(steps.announce())
}

#[test]
fn a_skip_reaches_at_most_to_the_end(rt: HostRuntime) -> Result<(), Fail> {
    let store = Some(Event::Store { c: 1, v: 5 });
    let load = Some(Event::Load { c: 0 });
    assert_eq!(rt; after_skip(&rt, 0, true, 5)?, store);
    assert_eq!(rt; after_skip(&rt, 1, true, 5)?, load);
    assert_eq!(rt; after_skip(&rt, 2, true, 5)?, None);
    assert_eq!(rt; after_skip(&rt, 256, true, 5)?, None);
    assert_eq!(rt; after_skip(&rt, 1, false, 5)?, store);
    assert_eq!(rt; after_skip(&rt, 1, false, 4)?, load);
    Ok(())
}

#[test]
fn lines_without_an_event_announce_nothing(rt: HostRuntime) -> Result<(), Fail> {
    let lines = Lines::new(rt.alloc(), Vec::from_slice(rt.alloc(), &[PLUS, PLUS])?)?;
    assert_eq!(rt; Steps::new(lines, TIMES).announce(), None);
    Ok(())
}
