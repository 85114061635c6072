use super::*;
use crate::AnyRoutine;
use crate::routine::tests::assert_steps;
use std::test::Fail;

#[test]
fn what_is_written_is_stamped_with_the_slot(rt: HostRuntime) -> Result<(), Fail> {
    let writer = AnyRoutine::LogWriter(LogWriter::new(0, 7));
    assert_steps(
        &rt,
        writer.copy(rt.alloc())?,
        &[
            (Event::Reserve, 1),
            (Event::Put { s: 1, v: 7 }, 0),
            (Event::Claim { p: 0 }, 0),
            (Event::Write { f: 0, v: 7, n: 1 }, 0),
        ],
    );
    Ok(())
}
