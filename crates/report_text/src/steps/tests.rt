use super::*;
use event_class::Event;
use std::test::Fail;
use surw_base::ThreadNo;

#[test]
fn each_step_has_its_number_and_mark(rt: HostRuntime) -> Result<(), Fail> {
    let journal = [
        Entry {
            thread: ThreadNo::new(0).unwrap(),
            event: Event::Acquire { l: 7 },
            reply: 0,
            forced: false,
        },
        Entry {
            thread: ThreadNo::new(15).unwrap(),
            event: Event::Store { c: 1, v: 20 },
            reply: u64::MAX,
            forced: true,
        },
        Entry {
            thread: ThreadNo::new(2).unwrap(),
            event: Event::Durable,
            reply: 3,
            forced: false,
        },
    ];
    let mut text = Vec::new(rt.alloc());
    push_step_lines(&mut text, &journal)?;
    let lines =
        b"step 0 0 acquire 7 = 0\nstep 1 15 store 1 20 = 18446744073709551615 forced\nstep 2 2 durable = 3\n";
    assert_eq!(rt; text.as_slice(), &lines[..]);
    Ok(())
}
