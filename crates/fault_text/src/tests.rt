use crate::Fault;
use replay_text::ReplayFault;
use scenario_toml::{ScenarioFault, read_scenario};
use std::alloc::{AllocError, Global};
use std::test::Fail;
use surw_base::ThreadNo;
use surw_io::{Failed, MemSink};

const OTHER_SCENARIO_TEXT: &str = "fault replay other_scenario \
0a0a0a0a0a0a0a0a0a0a0a0a0a0a0a0a0a0a0a0a0a0a0a0a0a0a0a0a0a0a0a0a \
ffffffffffffffffffffffffffffffffffffffffffffffffffffffffffffffff\n";

// The fault of a scenario file that has one.
fn fault_of(alloc: Global, file: &str) -> Result<Fault, AllocError> {
    match read_scenario(alloc, file.as_bytes()) {
        Ok(_) => Err(AllocError),
        Err(fault) => Ok(Fault::Scenario(fault)),
    }
}

const WORDS_TEXT: &str =
    "fault words\nusage: surw JOB NAME [SAVED] [--strategy S] [--seed N] [--depth N] [--save PATH]\n";

#[test]
fn each_fault_has_its_line(rt: HostRuntime) -> Result<(), Fail> {
    let thread = ThreadNo::new(15).unwrap();
    let rows = [
        (Fault::Words, WORDS_TEXT),
        (
            Fault::Lines { number: u64::MAX },
            "fault lines 18446744073709551615\n",
        ),
        (Fault::Read, "fault read\n"),
        (
            Fault::Offset {
                thread,
                place: 0,
                kept: 7,
                below: 2,
            },
            "fault offset 15 0 7 2\n",
        ),
        (
            Fault::TooLong { limit: 1_048_576 },
            "fault too_long 1048576\n",
        ),
        (Fault::ProfileStepLimit, "fault profile step_limit\n"),
        (
            Fault::ProfileDeadlock { step: 2 },
            "fault profile deadlock 2\n",
        ),
        (Fault::Replay(ReplayFault::Header), "fault replay header\n"),
        (
            Fault::Replay(ReplayFault::Line { number: 2 }),
            "fault replay line 2\n",
        ),
        (
            Fault::Replay(ReplayFault::TooMany { number: 65_539 }),
            "fault replay too_many 65539\n",
        ),
        (Fault::Replay(ReplayFault::NoEnd), "fault replay no_end\n"),
        (
            Fault::OtherScenario {
                kept: [10; 32],
                needed: [255; 32],
            },
            OTHER_SCENARIO_TEXT,
        ),
    ];
    for (fault, line) in rows.iter() {
        let mut out = MemSink::new(rt.alloc(), 200, 7, Vec::new(rt.alloc()))?;
        assert_eq!(rt; fault.put(&mut out), Ok(()), "{line}");
        assert_eq!(rt; out.taken(), line.as_bytes(), "{line}");
    }
    Ok(())
}

#[test]
fn each_fault_of_a_scenario_has_its_line(rt: HostRuntime) -> Result<(), Fail> {
    let rows = [
        ("= 1", "fault scenario not_toml\n"),
        ("thread = [{}]", "fault scenario missing thread.0.kind\n"),
        (
            "strategy = 'urw'\nseed = '7'",
            "fault scenario wrong_kind seed\n",
        ),
        ("cels = 1", "fault scenario unknown cels\n"),
        ("'' = 1", "fault scenario unknown \n"),
        (
            "max_steps = -1",
            "fault scenario range max_steps -1 1 65536\n",
        ),
        (
            "max_steps = -9223372036854775808",
            "fault scenario range max_steps -9223372036854775808 1 65536\n",
        ),
        (
            "strategy = 'urw'\nseed = -1",
            "fault scenario range seed -1 0 9223372036854775807\n",
        ),
        (
            "world.cells = 65",
            "fault scenario range world.cells 65 0 64\n",
        ),
        ("strategy = 'sruw'", "fault scenario name strategy sruw\n"),
    ];
    for (file, line) in rows {
        let fault = fault_of(rt.alloc(), file)?;
        let mut out = MemSink::new(rt.alloc(), 100, 7, Vec::new(rt.alloc()))?;
        assert_eq!(rt; fault.put(&mut out), Ok(()), "{line}");
        assert_eq!(rt; out.taken(), line.as_bytes(), "{line}");
    }
    Ok(())
}

#[test]
fn want_of_memory_writes_nothing(rt: HostRuntime) -> Result<(), Fail> {
    let fails = Vec::from_slice(rt.alloc(), &[0])?;
    let mut out = MemSink::new(rt.alloc(), 100, 100, fails)?;
    let fault = Fault::Scenario(ScenarioFault::OutOfMemory);
    assert_eq!(rt; fault.put(&mut out), Ok(()));
    assert_eq!(rt; out.taken(), b"".as_slice());
    Ok(())
}

#[test]
fn a_failed_write_leaves_a_prefix(rt: HostRuntime) -> Result<(), Fail> {
    let fault = fault_of(rt.alloc(), "max_steps = -1")?;
    let prefixes = [
        "",
        "fault scenario range",
        "fault scenario range ",
        "fault scenario range max_steps",
        "fault scenario range max_steps -1",
        "fault scenario range max_steps -1 1",
        "fault scenario range max_steps -1 1 65536",
    ];
    for (call, prefix) in prefixes.iter().enumerate() {
        let fails = Vec::from_slice(rt.alloc(), &[call as u32])?;
        let mut out = MemSink::new(rt.alloc(), 100, 100, fails)?;
        assert_eq!(rt; fault.put(&mut out), Err(Failed), "{call}");
        assert_eq!(rt; out.taken(), prefix.as_bytes(), "{call}");
    }
    Ok(())
}
