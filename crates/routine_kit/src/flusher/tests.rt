use super::*;
use crate::AnyRoutine;
use crate::routine::tests::assert_steps;
use std::test::Fail;

#[test]
fn a_round_without_a_mark_has_three_events(rt: HostRuntime) {
    assert_steps(
        &rt,
        Flusher::new(1, false),
        &[
            (Event::Oldest, 0),
            (Event::Stamp { f: 0 }, 1),
            (Event::Flush { f: 0 }, 0),
        ],
    );
}

#[test]
fn the_greatest_number_is_passed_on(rt: HostRuntime) -> Result<(), Fail> {
    let flusher = AnyRoutine::Flusher(Flusher::new(2, true));
    assert_steps(
        &rt,
        flusher.copy(rt.alloc())?,
        &[
            (Event::Oldest, 0),
            (Event::Stamp { f: 0 }, 1),
            (Event::Mark { n: 1 }, 0),
            (Event::Flush { f: 0 }, 0),
            (Event::Oldest, u64::MAX),
            (Event::Stamp { f: u64::MAX }, u64::MAX),
            (Event::Mark { n: u64::MAX }, u64::MAX),
            (Event::Flush { f: u64::MAX }, u64::MAX),
        ],
    );
    Ok(())
}

#[test]
fn no_rounds_have_ended_at_once(rt: HostRuntime) {
    assert_steps(&rt, Flusher::new(0, true), &[]);
}
