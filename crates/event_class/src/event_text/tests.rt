use super::*;
use std::test::Fail;

#[test]
fn each_event_is_printed(rt: HostRuntime) -> Result<(), Fail> {
    let rows: [(Event, &[u8]); 19] = [
        (Event::Acquire { l: 0 }, b"acquire 0"),
        (Event::Release { l: 7 }, b"release 7"),
        (Event::Load { c: 63 }, b"load 63"),
        (Event::Store { c: 1, v: 20 }, b"store 1 20"),
        (Event::Add { c: 3, v: 1 }, b"add 3 1"),
        (Event::SwapIf { c: 2, a: 10, b: 9 }, b"swap_if 2 10 9"),
        (Event::Find { p: 255 }, b"find 255"),
        (Event::Claim { p: 4 }, b"claim 4"),
        (Event::Fill { f: 5, p: 6 }, b"fill 5 6"),
        (Event::Read { f: u64::MAX }, b"read 18446744073709551615"),
        (Event::Write { f: 1, v: 2, n: 3 }, b"write 1 2 3"),
        (Event::Oldest, b"oldest"),
        (Event::Stamp { f: 8 }, b"stamp 8"),
        (Event::Flush { f: 9 }, b"flush 9"),
        (Event::Reserve, b"reserve"),
        (Event::Put { s: 4096, v: 50 }, b"put 4096 50"),
        (Event::Mark { n: 12 }, b"mark 12"),
        (Event::Durable, b"durable"),
        (Event::Check { a: 1, b: 0 }, b"check 1 0"),
    ];
    for (i, (event, text)) in rows.iter().enumerate() {
        let mut out = Vec::new(rt.alloc());
        out.push(b'=')?;
        push_event(&mut out, event)?;
        assert_eq!(rt; &out.as_slice()[1..], *text, "at {i}");
    }
    Ok(())
}

#[test]
fn the_longest_prefix_is_read(rt: HostRuntime) {
    let load = Event::Load { c: 12 };
    let cut = Event::Load {
        c: 1_844_674_407_370_955_161,
    };
    let rows: [(&[u8], Event, usize); 7] = [
        (b"load 12x", load, 7),
        (b"load 12 3", load, 7),
        (b"load 01", Event::Load { c: 0 }, 6),
        (b"load 18446744073709551616", cut, 24),
        (b"reserved", Event::Reserve, 7),
        (b"oldest 1", Event::Oldest, 6),
        (b"store 1 20 = 0", Event::Store { c: 1, v: 20 }, 10),
    ];
    for (i, (text, event, len)) in rows.iter().enumerate() {
        assert_eq!(rt; read_event(text), Some((*event, *len)), "at {i}");
    }
}

#[test]
fn a_text_without_an_event_at_its_prefix(rt: HostRuntime) {
    let rows: [&[u8]; 12] = [
        b"",
        b"load",
        b"load ",
        b"load x",
        b"load  1",
        b"load\t1",
        b"Load 1",
        b" load 1",
        b"store 1",
        b"store 01 2",
        b"store 18446744073709551616 1",
        b"reserv",
    ];
    for (i, text) in rows.iter().enumerate() {
        assert_eq!(rt; read_event(text), None, "at {i}");
    }
}
