use super::*;
use std::test::Fail;

#[test]
fn each_verdict_has_its_line(rt: HostRuntime) -> Result<(), Fail> {
    let thread = ThreadNo::new(15).unwrap();
    let event = Event::SwapIf { c: 2, a: 10, b: 9 };
    let short = DrawFault::Short { place: 7 };
    let large = DrawFault::Large {
        place: 0,
        kept: u64::MAX,
        below: 12,
    };
    let rows: [(Verdict, &[u8]); 9] = [
        (Verdict::Ended, b"verdict ended\n"),
        (Verdict::Deadlock { step: 3 }, b"verdict deadlock 3\n"),
        (
            Verdict::WrongCount {
                step: 4,
                thread,
                counted: 20,
                seen: 19,
            },
            b"verdict wrong_count 4 15 20 19\n",
        ),
        (
            Verdict::Draw {
                step: 5,
                fault: short,
            },
            b"verdict draw 5 short 7\n",
        ),
        (
            Verdict::Draw {
                step: 6,
                fault: large,
            },
            b"verdict draw 6 large 0 18446744073709551615 12\n",
        ),
        (
            Verdict::Asked {
                step: 7,
                thread,
                event,
                announced: Some(Event::Oldest),
            },
            b"verdict asked 7 15 swap_if 2 10 9; announced oldest\n",
        ),
        (
            Verdict::Asked {
                step: 8,
                thread,
                event: Event::Load { c: 1 },
                announced: None,
            },
            b"verdict asked 8 15 load 1; announced nothing\n",
        ),
        (Verdict::Left { step: 9, thread }, b"verdict left 9 15\n"),
        (
            Verdict::StepLimit { step: 65_536 },
            b"verdict step_limit 65536\n",
        ),
    ];
    for (i, (verdict, line)) in rows.iter().enumerate() {
        let mut text = Vec::new(rt.alloc());
        push_verdict_line(&mut text, verdict)?;
        assert_eq!(rt; text.as_slice(), *line, "at {i}");
    }
    Ok(())
}
