use super::*;
use std::test::Fail;

const MAX: u64 = u64::MAX;

#[derive(Clone, Copy)]
enum Event {
    Reserve,
    Put(u64, u64),
    Mark(u64),
    Durable,
}

fn make(log: &mut WalLog, event: &Event) -> u64 {
    match *event {
        Event::Reserve => log.reserve(),
        Event::Put(s, v) => log.put(s, v),
        Event::Mark(n) => log.mark(n),
        Event::Durable => log.durable(),
    }
}

#[test]
fn events_reply_and_change_by_the_table(rt: HostRuntime) -> Result<(), Fail> {
    // Each event, its reply, and then how many slots are reserved, and whether the log is whole.
    let rows = [
        (Event::Durable, 0, 0, true),
        (Event::Put(0, 5), MAX, 0, true),
        (Event::Put(1, 5), 1, 0, true),
        (Event::Put(3, 5), MAX, 0, true),
        (Event::Mark(0), 0, 0, true),
        (Event::Mark(1), 1, 0, true),
        (Event::Mark(3), MAX, 0, true),
        (Event::Reserve, 1, 1, true),
        (Event::Put(2, 5), 1, 1, true),
        (Event::Mark(2), 1, 1, true),
        (Event::Mark(1), 0, 1, false),
        (Event::Durable, 1, 1, false),
        (Event::Put(1, 5), 0, 1, true),
        (Event::Put(1, 6), 1, 1, true),
        (Event::Reserve, 2, 2, true),
        (Event::Reserve, 0, 2, true),
        (Event::Mark(0), 0, 2, true),
        (Event::Durable, 1, 2, true),
        (Event::Mark(2), 0, 2, false),
        (Event::Durable, 2, 2, false),
        (Event::Put(2, MAX), 0, 2, true),
        (Event::Put(65537, 1), MAX, 2, true),
        (Event::Mark(65536), MAX, 2, true),
        (Event::Mark(MAX), MAX, 2, true),
    ];
    let mut log = WalLog::new(rt.alloc(), 2)?;
    for (i, (event, reply, reserved, whole)) in rows.iter().enumerate() {
        assert_eq!(rt; make(&mut log, event), *reply, "at {i}");
        assert_eq!(rt;
            (log.reserved(), log.whole()),
            (*reserved, *whole),
            "at {i}"
        );
    }
    let reserved = log.reserved();
    assert!(rt; reserved == 2);
    assert_eq!(rt; [log.slot(1), log.slot(2)], [Some(5), Some(MAX)]);
    Ok(())
}

#[test]
fn a_slot_is_filled_once(rt: HostRuntime) -> Result<(), Fail> {
    let mut log = WalLog::new(rt.alloc(), 1)?;
    assert_eq!(rt; [log.reserve(), log.reserve()], [1, 0]);
    assert!(rt; log.slot(1).is_none());
    assert_eq!(rt;
        [log.put(1, 5), log.put(1, 5), log.mark(1), log.put(2, 5)],
        [0, 1, 0, MAX]
    );
    Ok(())
}
