use super::*;
use std::test::Fail;

#[test]
fn a_list_is_read_and_printed(rt: HostRuntime) -> Result<(), Fail> {
    let mut out = Vec::new(rt.alloc());
    push_list_line(&mut out, b"draws", &[0, 18, 7])?;
    assert_eq!(rt; out.as_slice(), b"draws 0 18 7\n".as_slice());
    let read = read_list(rt.alloc(), b"draws", b"draws 0 18 7")?;
    assert_eq!(rt; read.as_slice(), [0, 18, 7].as_slice());
    let other = read_list(rt.alloc(), b"draws", b"draws 0  7");
    assert_eq!(rt; other.err(), Some(ListFault::Form));
    Ok(())
}
