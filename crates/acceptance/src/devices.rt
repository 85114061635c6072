use crate::command::{shelf_of, words_of};
use crate::lost_update::LOST_UPDATE;
use std::test::Fail;
use surw_cli::{Status, surw_plain};
use surw_io::MemSink;

#[test]
fn devices_fail(rt: HostRuntime) -> Result<(), Fail> {
    let alloc = rt.alloc();
    for (case, name, shelf_fails, sink_fails, status, printed) in [
        (
            "no such file",
            "g",
            99,
            99,
            Status::ReadFault,
            "fault read\n",
        ),
        (
            "no such file, and the sink fails",
            "g",
            99,
            0,
            Status::ReadFault,
            "",
        ),
        (
            "the open fails",
            "f",
            0,
            99,
            Status::ReadFault,
            "fault read\n",
        ),
        (
            "a read fails",
            "f",
            2,
            99,
            Status::ReadFault,
            "fault read\n",
        ),
        (
            "the sink fails at its second write",
            "f",
            99,
            1,
            Status::WriteFault,
            "orde",
        ),
        ("the sink fails at once", "f", 99, 0, Status::WriteFault, ""),
    ] {
        let words = words_of(alloc, "order", name)?;
        let mut shelf = shelf_of(alloc, "f", b"counts 2 1\ndraws 0 0 0\n", &[shelf_fails])?;
        // The fault's line goes out whole, the report in pieces of four bytes.
        let piece = if status == Status::ReadFault { 100 } else { 4 };
        let mut out = MemSink::new(alloc, 1000, piece, [sink_fails].to_vec(alloc)?)?;
        let ended = surw_plain(alloc, words.as_slice(), &mut shelf, &mut out);
        assert_eq!(rt; ended, status, "{case}");
        assert_eq!(rt; out.taken(), printed.as_bytes(), "{case}");
    }
    Ok(())
}

#[test]
fn a_report_that_the_sink_fails_at(rt: HostRuntime) -> Result<(), Fail> {
    let words = words_of(rt.alloc(), "plan", "f")?;
    let mut shelf = shelf_of(rt.alloc(), "f", LOST_UPDATE.as_bytes(), &[])?;
    let mut out = MemSink::new(rt.alloc(), 1000, 16, Vec::from_slice(rt.alloc(), &[1])?)?;
    let status = surw_plain(rt.alloc(), words.as_slice(), &mut shelf, &mut out);
    assert_eq!(rt; status, Status::WriteFault);
    assert_eq!(rt; out.taken(), b"verdict ended\nst".as_slice());
    Ok(())
}
