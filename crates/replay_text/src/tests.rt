use crate::{ReplayFault, Saved, read_replay, write_replay};
use event_class::Event;
use std::process::Abort;
use std::test::Fail;
use surw_base::ThreadNo;
use walk_rules::{Asked, AskedList};

// The SHA-256 of no bytes.
const NAME: [u8; 32] = [
    0xe3, 0xb0, 0xc4, 0x42, 0x98, 0xfc, 0x1c, 0x14, 0x9a, 0xfb, 0xf4, 0xc8, 0x99, 0x6f, 0xb9, 0x24,
    0x27, 0xae, 0x41, 0xe4, 0x64, 0x9b, 0x93, 0x4c, 0xa4, 0x95, 0x99, 0x1b, 0x78, 0x52, 0xb8, 0x55,
];

// The text of a run of this name with four entries.
const TEXT: &[u8] = b"surw-replay 1\n\
scenario e3b0c44298fc1c149afbf4c8996fb92427ae41e4649b934ca495991b7852b855\n\
0 load 0\n\
1 load 0\n\
0 store 0 1\n\
1 store 0 1\n\
end 4\n";

// The lines before its entries.
const FRONT: &[u8] = b"surw-replay 1\n\
scenario e3b0c44298fc1c149afbf4c8996fb92427ae41e4649b934ca495991b7852b855\n";

fn asked(rt: &impl Abort, thread: u8, event: Event) -> Asked {
    let thread = ThreadNo::new(thread).expect(rt, "a thread");
    Asked { thread, event }
}

#[test]
fn a_run_is_printed_and_read_back(rt: HostRuntime) -> Result<(), Fail> {
    let entries = [
        asked(&rt, 0, Event::Load { c: 0 }),
        asked(&rt, 1, Event::Load { c: 0 }),
        asked(&rt, 0, Event::Store { c: 0, v: 1 }),
        asked(&rt, 1, Event::Store { c: 0, v: 1 }),
    ];
    let saved = Saved::new(NAME, AskedList::new(Vec::from_slice(rt.alloc(), &entries)?));
    let text = write_replay(rt.alloc(), &saved)?;
    assert_eq!(rt; text.as_slice(), TEXT);
    let read = read_replay(rt.alloc(), TEXT)?;
    assert_eq!(rt; read.name(), NAME);
    assert_eq!(rt; read.into_asked().as_slice(), entries.as_slice());
    Ok(())
}

#[test]
fn a_text_that_is_cut_off_has_no_end(rt: HostRuntime) {
    for len in 0..TEXT.len() {
        let fault = if len < 14 {
            ReplayFault::Header
        } else {
            ReplayFault::NoEnd
        };
        let read = read_replay(rt.alloc(), &TEXT[..len]);
        assert_eq!(rt; read.err(), Some(fault), "cut to {len}");
    }
}

#[test]
fn faults_before_the_entries(rt: HostRuntime) {
    let rows: [(&[u8], ReplayFault); 3] = [
        (
            b"surw-replay 1\r\nscenario e3b0c44298fc1c149afbf4c8996fb92427ae41e4649b934ca495991b7852b855\nend 0\n",
            ReplayFault::Header,
        ),
        (
            b"surw-replay 1\nscenario e3B0c44298fc1c149afbf4c8996fb92427ae41e4649b934ca495991b7852b855\nend 0\n",
            ReplayFault::Line { number: 2 },
        ),
        (
            b"surw-replay 1\n0 load 0\nend 1\n",
            ReplayFault::Line { number: 2 },
        ),
    ];
    for (i, (text, fault)) in rows.iter().enumerate() {
        assert_eq!(rt; read_replay(rt.alloc(), text).err(), Some(*fault), "at {i}");
    }
}

#[test]
fn faults_behind_the_name(rt: HostRuntime) -> Result<(), Fail> {
    let rows: [(&[u8], u32); 8] = [
        (b"0 load 00\nend 1\n", 3),
        (b"00 load 0\nend 1\n", 3),
        (b"16 load 0\nend 1\n", 3),
        (b"0  load 0\nend 1\n", 3),
        (b"0 load  0\nend 1\n", 3),
        (b"0 load 0\n1 load 0\n0 store 0 1\n1 store 0 1\nend 3\n", 7),
        (b"0 load 0\n1 load 0\n0 store 0 1\n1 store 0 1\nend 4\n ", 8),
        (
            b"0 load 0\n1 load 0\n0 store 0 1\n1 store 0 1\nend 4\n\n",
            8,
        ),
    ];
    for (i, (lines, number)) in rows.iter().enumerate() {
        let mut text = Vec::from_slice(rt.alloc(), FRONT)?;
        text.extend_from_slice(lines)?;
        let fault = ReplayFault::Line { number: *number };
        assert_eq!(rt;
            read_replay(rt.alloc(), text.as_slice()).err(),
            Some(fault),
            "at {i}"
        );
    }
    Ok(())
}

#[test]
fn as_many_entries_as_a_run_has(rt: HostRuntime) -> Result<(), Fail> {
    let mut text = Vec::from_slice(rt.alloc(), FRONT)?;
    for _entry in 0..65_536 {
        text.extend_from_slice(b"0 load 0\n")?;
    }
    let mut longer = Vec::from_slice(rt.alloc(), text.as_slice())?;
    text.extend_from_slice(b"end 65536\n")?;
    let saved = read_replay(rt.alloc(), text.as_slice())?;
    assert_eq!(rt; saved.asked().len(), 65_536);
    assert!(rt; write_replay(rt.alloc(), &saved)?.as_slice() == text.as_slice());
    longer.extend_from_slice(b"0 load 0\n")?;
    let fault = ReplayFault::TooMany { number: 65_539 };
    assert_eq!(rt;
        read_replay(rt.alloc(), longer.as_slice()).err(),
        Some(fault)
    );
    Ok(())
}

#[test]
fn a_changed_text_that_is_read_is_printed_as_it_is(rt: HostRuntime) -> Result<(), Fail> {
    for place in 0..TEXT.len() {
        for byte in b"\0\n\r 019aEefl\xff" {
            let mut text = Vec::from_slice(rt.alloc(), &TEXT[..place])?;
            text.push(*byte)?;
            text.extend_from_slice(&TEXT[place + 1..])?;
            if let Ok(saved) = read_replay(rt.alloc(), text.as_slice()) {
                let printed = write_replay(rt.alloc(), &saved)?;
                assert_eq!(rt; printed.as_slice(), text.as_slice(), "{byte} at {place}");
            }
        }
    }
    Ok(())
}
