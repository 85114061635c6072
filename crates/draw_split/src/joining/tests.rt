ghost use Rattle.std.specs.Prelude.{◌≤◌, length};

use super::*;
use std::test::Fail;

// The draws, for counts 2 and 1, of an order with these offsets of threads 0 and 1.
fn joined(
    alloc: Global,
    order: &[ThreadNo],
    first: &[u32],
    second: &[u32],
) -> Result<Result<Vec<u64>, JoinFault>, Fail>
    requires order { length order.now ≤ STEPS }
    requires first { length first.now ≤ STEPS }
    requires second { length second.now ≤ STEPS }
{
    let order = Vec::from_slice(alloc, order)?;
    let first = Vec::from_slice(alloc, first)?;
    let second = Vec::from_slice(alloc, second)?;
    let offsets = vec![in alloc; first, second]?;
    let split = Split::new(alloc, order, offsets)?;
    Ok(draws_of(alloc, &[2, 1], &split))
}

fn threads() -> (ThreadNo, ThreadNo) {
    (ThreadNo::new(0).unwrap(), ThreadNo::new(1).unwrap())
}

#[test]
fn an_order_and_offsets_lead_back_to_their_draws(rt: HostRuntime) -> Result<(), Fail> {
    let (zero, one) = threads();
    let draws = joined(rt.alloc(), &[zero, one, zero], &[1, 0], &[0])??;
    assert_eq!(rt; draws.as_slice(), [1, 1, 0].as_slice());
    Ok(())
}

#[test]
fn what_no_draws_name_is_refused(rt: HostRuntime) -> Result<(), Fail> {
    let (zero, one) = threads();
    let outside = joined(rt.alloc(), &[zero, one, zero], &[2, 0], &[0])?.err();
    let fault = JoinFault::Offset {
        thread: zero,
        place: 0,
        kept: 2,
        below: 2,
    };
    assert_eq!(rt; outside, Some(fault));
    let few = joined(rt.alloc(), &[zero, one, zero], &[1], &[0])?.err();
    let fault = JoinFault::Offsets {
        thread: zero,
        counted: 2,
        seen: 1,
    };
    assert_eq!(rt; few, Some(fault));
    let miscounted = joined(rt.alloc(), &[zero, one, one], &[0], &[0, 0])?.err();
    let fault = JoinFault::Miscount {
        thread: zero,
        counted: 2,
        seen: 1,
    };
    assert_eq!(rt; miscounted, Some(fault));
    Ok(())
}

#[test]
fn a_refusal_tells_its_numbers(rt: HostRuntime) -> Result<(), Fail> {
    let (_zero, one) = threads();
    for (fault, text) in [
        (
            JoinFault::Miscount {
                thread: one,
                counted: 2,
                seen: 3,
            },
            "thread 1 is counted 2 and stands 3 times in the order",
        ),
        (
            JoinFault::Offsets {
                thread: one,
                counted: 2,
                seen: 3,
            },
            "thread 1 is counted 2 and has 3 offsets",
        ),
        (
            JoinFault::Offset {
                thread: one,
                place: 4,
                kept: 9,
                below: 6,
            },
            "offset 4 of thread 1 is 9 and not below 6",
        ),
    ] {
        let printed = format!(in rt.alloc(); "{fault}")?;
        assert_eq!(rt; printed.as_str(), text);
    }
    Ok(())
}
