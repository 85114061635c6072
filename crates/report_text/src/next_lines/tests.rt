use super::*;
use std::test::Fail;

#[test]
fn a_thread_that_announces_nothing_has_no_line(rt: HostRuntime) -> Result<(), Fail> {
    let mut text = Vec::new(rt.alloc());
    push_next_line(&mut text, ThreadNo::new(1).unwrap(), None)?;
    assert_eq!(rt; text.len(), 0);
    push_next_line(
        &mut text,
        ThreadNo::new(2).unwrap(),
        Some(Event::Load { c: 63 }),
    )?;
    assert_eq!(rt; text.as_slice(), &b"next 2 load 63\n"[..]);
    Ok(())
}
