ghost use Rattle.std.specs.Prelude.{◌≤◌, length, sum};

use super::*;
use std::process::Abort;
use std::test::Fail;
use surw_base::ThreadNo;

// Draws, and the order and the offsets of threads 0 and 1 that they are to name.
#[derive(Clone, Copy)]
struct Row<'a> {
    draws: &'a [u64],
    order: &'a [u8],
    first: &'a [u32],
    second: &'a [u32],
}

fn names(rt: &impl Abort, alloc: Global, counts: &[u32], row: Row) -> Result<(), Fail>
    requires threads { length counts.now ≤ THREADS }
    requires steps { sum counts.now ≤ STEPS }
{
    let split = order_of(alloc, counts, row.draws)?;
    let order = split.order();
    assert_eq!(rt; order.len(), row.order.len());
    assert!(rt;
        order
            .iter()
            .zip(row.order)
            .all(|(thread, number)| thread.get() == *number)
    );
    assert_eq!(rt; split.offsets(ThreadNo::new(0).unwrap()), row.first);
    assert_eq!(rt; split.offsets(ThreadNo::new(1).unwrap()), row.second);
    Ok(())
}

fn refuses(rt: &impl Abort, alloc: Global, draws: &[u64], fault: SplitFault) {
    let answer = order_of(alloc, &[2, 1], draws).err();
    assert_eq!(rt; answer, Some(fault));
}

#[test]
fn draws_name_an_order_and_offsets(rt: HostRuntime) -> Result<(), Fail> {
    let rows = [
        ([0, 0, 0], [0, 0, 1], [0, 0]),
        ([1, 0, 0], [0, 0, 1], [1, 0]),
        ([0, 1, 0], [0, 1, 0], [0, 0]),
        ([1, 1, 0], [0, 1, 0], [1, 0]),
        ([2, 0, 0], [1, 0, 0], [0, 0]),
        ([2, 1, 0], [1, 0, 0], [1, 0]),
    ];
    for (draws, order, first) in rows {
        let row = Row {
            draws: &draws,
            order: &order,
            first: &first,
            second: &[0],
        };
        names(&rt, rt.alloc(), &[2, 1], row)?;
    }
    let nothing = Row {
        draws: &[],
        order: &[],
        first: &[],
        second: &[],
    };
    names(&rt, rt.alloc(), &[], nothing)?;
    let middle = Row {
        draws: &[2, 1, 0],
        order: &[1, 1, 1],
        first: &[],
        second: &[2, 1, 0],
    };
    names(&rt, rt.alloc(), &[0, 3, 0], middle)
}

#[test]
fn draws_that_name_no_order_are_refused(rt: HostRuntime) -> Result<(), Fail> {
    let large = SplitFault::Large {
        place: 0,
        kept: 3,
        below: 3,
    };
    refuses(&rt, rt.alloc(), &[3, 0, 0], large);
    refuses(
        &rt,
        rt.alloc(),
        &[0, 0],
        SplitFault::Length { kept: 2, needed: 3 },
    );
    Ok(())
}

#[test]
fn a_refusal_tells_its_numbers(rt: HostRuntime) -> Result<(), Fail> {
    for (fault, text) in [
        (
            SplitFault::Length { kept: 2, needed: 3 },
            "2 draws where 3 are needed",
        ),
        (
            SplitFault::Large {
                place: 1,
                kept: 7,
                below: 5,
            },
            "draw 1 is 7 and not below 5",
        ),
    ] {
        let printed = format!(in rt.alloc(); "{fault}")?;
        assert_eq!(rt; printed.as_str(), text);
    }
    Ok(())
}
