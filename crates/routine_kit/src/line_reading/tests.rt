use super::*;

#[test]
fn lines_are_read(rt: HostRuntime) {
    let load = Shape::Load { c: Operand::Num(0) };
    let write = Shape::Write {
        f: Operand::Reg(0),
        v: Operand::Num(7),
        n: Operand::Reg(3),
    };
    let rows: [(&[u8], Line); 7] = [
        (
            b"load 0 -> r0",
            Line::Act {
                shape: load,
                into: Some(0),
            },
        ),
        (
            b"load 0",
            Line::Act {
                shape: load,
                into: None,
            },
        ),
        (
            b"write r0 7 r3 -> r2",
            Line::Act {
                shape: write,
                into: Some(2),
            },
        ),
        (
            b"oldest",
            Line::Act {
                shape: Shape::Oldest,
                into: None,
            },
        ),
        (
            b"plus r3 18446744073709551615",
            Line::Plus {
                reg: 3,
                by: Operand::Num(u64::MAX),
            },
        ),
        (
            b"skip 256 if r0 != r1",
            Line::Skip {
                over: 256,
                reg: 0,
                equal: false,
                with: Operand::Reg(1),
            },
        ),
        (
            b"skip 0 if r2 = 5",
            Line::Skip {
                over: 0,
                reg: 2,
                equal: true,
                with: Operand::Num(5),
            },
        ),
    ];
    for (i, (text, line)) in rows.iter().enumerate() {
        assert_eq!(rt; read_line(text), Some(*line), "at {i}");
    }
}

#[test]
fn texts_that_are_no_line(rt: HostRuntime) {
    let rows: [&[u8]; 14] = [
        b"",
        b"load 0 ->r0",
        b"skip 257 if r0 = 1",
        b"plus r4 1",
        b"load",
        b"load  0",
        b" load 0",
        b"load 0 ",
        b"load 01",
        b"load 0 -> 1",
        b"load 0 -> r0 1",
        b"oldest 1",
        b"plus 1 r0",
        b"skip 1 if r0 == 1",
    ];
    for (i, text) in rows.iter().enumerate() {
        assert_eq!(rt; read_line(text), None, "at {i}");
    }
}
