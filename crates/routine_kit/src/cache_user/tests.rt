use super::*;
use crate::AnyRoutine;
use crate::routine::tests::assert_steps;
use std::test::Fail;

// Two users of one frame: the second claims it before the first has read it.
#[test]
fn a_page_that_is_not_found_is_claimed_and_filled(rt: HostRuntime) -> Result<(), Fail> {
    let first = AnyRoutine::CacheUser(CacheUser::new(0, 0, None));
    assert_steps(
        &rt,
        first.copy(rt.alloc())?,
        &[
            (Event::Find { p: 0 }, u64::MAX),
            (Event::Claim { p: 0 }, 0),
            (Event::Fill { f: 0, p: 0 }, 0),
            (Event::Read { f: 0 }, 1),
            (Event::Check { a: 1, b: 0 }, 1),
        ],
    );
    assert_steps(
        &rt,
        CacheUser::new(1, 1, None),
        &[
            (Event::Find { p: 1 }, u64::MAX),
            (Event::Claim { p: 1 }, 0),
            (Event::Fill { f: 0, p: 1 }, 0),
            (Event::Read { f: 0 }, 1),
            (Event::Check { a: 1, b: 1 }, 0),
        ],
    );
    Ok(())
}

#[test]
fn a_page_that_cannot_be_claimed_has_its_lock_released(rt: HostRuntime) {
    assert_steps(
        &rt,
        CacheUser::new(1, 5, Some(3)),
        &[
            (Event::Acquire { l: 3 }, 0),
            (Event::Find { p: 1 }, u64::MAX),
            (Event::Claim { p: 1 }, u64::MAX),
            (Event::Release { l: 3 }, 0),
        ],
    );
}
