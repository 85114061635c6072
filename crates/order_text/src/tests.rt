use crate::{draws_text, order_text, read_draws_file, read_order_file};
use std::test::Fail;

#[test]
fn an_order_file_is_read_and_its_draws_printed(rt: HostRuntime) -> Result<(), Fail> {
    let file = read_order_file(rt.alloc(), b"counts 2 1\ndraws 1 1 0\n")?;
    assert_eq!(rt; file.counts.as_slice(), [2, 1].as_slice());
    let text = draws_text(rt.alloc(), file.draws.as_slice())?;
    assert_eq!(rt; text.as_slice(), b"draws 1 1 0\n".as_slice());
    Ok(())
}

#[test]
fn a_file_of_draws_is_read_and_its_order_printed(rt: HostRuntime) -> Result<(), Fail> {
    let bytes = b"counts 2 1\norder 0 1 0\noffsets 0 1 0\noffsets 1 0\n";
    let file = read_draws_file(rt.alloc(), bytes)?;
    let text = order_text(rt.alloc(), file.counts.threads(), &file.split)?;
    assert_eq!(rt; text.as_slice(), &bytes[11..]);
    Ok(())
}
