use crate::command::texts_of;
use crate::lost_update::{LOST_REPORT, LOST_UPDATE};
use gate_core::Bare;
use std::alloc::Global;
use std::test::Fail;
use surw_cli::{Status, surw, surw_plain};
use surw_io::{MemShelf, MemSink};

// The saved run of the lost update, under the SHA-256 of its scenario.
const LOST_SAVED: &str = "\
surw-replay 1
scenario 6998dd28ad7f086c595259603a1568bec12a9f2a9523683a68c6dd0a22e896c2
0 load 0
1 load 0
0 store 0 1
1 store 0 1
end 4
";

// The same under another name.
const OTHER_SAVED: &str = "\
surw-replay 1
scenario 0000000000000000000000000000000000000000000000000000000000000000
end 0
";

// A shelf of the scenario and of a saved run. It reads and writes pieces of 32 bytes, and the calls of these numbers
// fail.
fn shelf_of_both(alloc: Global, saved: &str, fails: &[u32]) -> Result<MemShelf, Fail> {
    let mut files = Vec::new(alloc);
    files.push((
        String::from_str(alloc, "f")?,
        LOST_UPDATE.as_bytes().to_vec(alloc)?,
    ))?;
    files.push((
        String::from_str(alloc, "s")?,
        saved.as_bytes().to_vec(alloc)?,
    ))?;
    Ok(MemShelf::new(alloc, files, 1000, 32, fails.to_vec(alloc)?)?)
}

#[test]
fn a_run_is_saved(rt: HostRuntime) -> Result<(), Fail> {
    let alloc = rt.alloc();
    let words = texts_of(alloc, &["plan", "f", "--save", "p"])?;
    let mut shelf = shelf_of_both(alloc, "", &[])?;
    let mut out = MemSink::new(alloc, 1000, 1000, Vec::new(alloc))?;
    let status = surw_plain(alloc, words.as_slice(), &mut shelf, &mut out);
    assert_eq!(rt; status, Status::Failing);
    assert_eq!(rt; out.taken(), LOST_REPORT.as_bytes());
    assert_eq!(rt;
        shelf.made(),
        Some((b"p".as_slice(), LOST_SAVED.as_bytes()))
    );
    Ok(())
}

#[test]
fn a_saved_run_is_repeated_on_threads(rt: HostRuntime) -> Result<(), Fail> {
    let alloc = rt.alloc();
    let words = texts_of(alloc, &["replay", "f", "s"])?;
    let mut shelf = shelf_of_both(alloc, LOST_SAVED, &[])?;
    let mut out = MemSink::new(alloc, 1000, 1000, Vec::new(alloc))?;
    let status = surw(&rt, alloc, words.as_slice(), &mut shelf, &mut out, &Bare);
    assert_eq!(rt; status, Status::Failing);
    assert_eq!(rt; out.taken(), LOST_REPORT.as_bytes());
    assert_eq!(rt; shelf.made(), None);
    Ok(())
}

#[test]
fn a_saved_run_of_another_scenario(rt: HostRuntime) -> Result<(), Fail> {
    let alloc = rt.alloc();
    let words = texts_of(alloc, &["replay", "f", "s"])?;
    let mut shelf = shelf_of_both(alloc, OTHER_SAVED, &[])?;
    let mut out = MemSink::new(alloc, 1000, 1000, Vec::new(alloc))?;
    let status = surw(&rt, alloc, words.as_slice(), &mut shelf, &mut out, &Bare);
    let line = b"fault replay other_scenario \
        0000000000000000000000000000000000000000000000000000000000000000 \
        6998dd28ad7f086c595259603a1568bec12a9f2a9523683a68c6dd0a22e896c2\n"
        .as_slice();
    assert_eq!(rt; status, Status::SavedForm);
    assert_eq!(rt; out.taken(), line);
    Ok(())
}

// Each call of the shelf fails in turn: an open or a read before anything is created, a create with nothing created, and
// a write with a prefix of the saved run. Nothing is reported then.
#[test]
fn a_shelf_that_fails_while_a_run_is_saved(rt: HostRuntime) -> Result<(), Fail> {
    let alloc = rt.alloc();
    let words = texts_of(alloc, &["plan", "f", "--save", "p"])?;
    let mut read_faults = 0u32;
    let mut write_faults = 0usize;
    for call in 0..100u32 {
        let mut shelf = shelf_of_both(alloc, "", &[call])?;
        let mut out = MemSink::new(alloc, 1000, 1000, Vec::new(alloc))?;
        let status = surw_plain(alloc, words.as_slice(), &mut shelf, &mut out);
        match status {
            Status::ReadFault => {
                assert_eq!(rt; out.taken(), b"fault read\n".as_slice(), "{call}");
                assert_eq!(rt; shelf.made(), None, "{call}");
                read_faults = read_faults.saturating_add(1);
            }
            Status::WriteFault => {
                assert_eq!(rt; out.taken(), b"".as_slice(), "{call}");
                let made = shelf.made().map(|(_, bytes)| bytes).unwrap_or(b"");
                assert_eq!(rt;
                    made.len(),
                    write_faults.saturating_sub(1).saturating_mul(32),
                    "{call}"
                );
                assert!(rt; LOST_SAVED.as_bytes().starts_with(made), "{call}");
                write_faults = write_faults.saturating_add(1);
            }
            _ => break,
        }
    }
    // The scenario's 266 bytes take nine reads and one that finds the end, behind the open; the saved run's 136 bytes take
    // five writes, behind the create.
    assert_eq!(rt; (read_faults, write_faults), (11, 6));
    Ok(())
}
