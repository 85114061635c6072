use super::*;
use std::test::Fail;

#[test]
fn each_monitor_has_its_line(rt: HostRuntime) -> Result<(), Fail> {
    let cell_end = Monitor::CellEnd { cell: 3, value: 40 };
    let rows: [(Verdict, Monitor, Option<u32>, &[u8]); 8] = [
        (
            Verdict::Ended,
            Monitor::WriteAhead,
            None,
            b"monitor write_ahead held\n",
        ),
        (
            Verdict::Deadlock { step: 2 },
            Monitor::WriteAhead,
            Some(1),
            b"monitor write_ahead failed after 1\n",
        ),
        (
            Verdict::Deadlock { step: 2 },
            Monitor::LogWhole,
            None,
            b"monitor log_whole held\n",
        ),
        (
            Verdict::Ended,
            Monitor::Expect,
            Some(0),
            b"monitor expect failed after 0\n",
        ),
        (
            Verdict::Ended,
            cell_end,
            None,
            b"monitor cell_end 3 40 held\n",
        ),
        (
            Verdict::Ended,
            cell_end,
            Some(65_536),
            b"monitor cell_end 3 40 failed after 65536\n",
        ),
        (
            Verdict::Deadlock { step: 2 },
            cell_end,
            None,
            b"monitor cell_end 3 40 unjudged\n",
        ),
        (
            Verdict::StepLimit { step: 2 },
            cell_end,
            Some(2),
            b"monitor cell_end 3 40 unjudged\n",
        ),
    ];
    for (i, (verdict, monitor, failed, line)) in rows.iter().enumerate() {
        let mut text = Vec::new(rt.alloc());
        push_monitor_line(&mut text, verdict, monitor, *failed)?;
        assert_eq!(rt; text.as_slice(), *line, "at {i}");
    }
    Ok(())
}
