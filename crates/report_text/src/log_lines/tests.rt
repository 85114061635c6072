use super::*;
use std::test::Fail;

#[test]
fn the_slots_and_the_mark_have_their_lines(rt: HostRuntime) -> Result<(), Fail> {
    let mut log = WalLog::new(rt.alloc(), 3)?;
    log.reserve();
    log.reserve();
    log.put(2, 30);
    log.mark(1);
    let mut text = Vec::new(rt.alloc());
    push_log_lines(&mut text, &log)?;
    assert_eq!(rt; text.as_slice(), &b"slots - 30\nmark 1\n"[..]);
    Ok(())
}
