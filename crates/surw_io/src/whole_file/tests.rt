use super::*;
use crate::{MemShelf, SafeShelf};
use std::test::Fail;

// A shelf with one file, whose reads move 3 bytes.
fn shelf_of(
    alloc: Global,
    name: &str,
    bytes: &[u8],
    fails: &[u32],
) -> Result<MemShelf, AllocError> {
    let mut files = Vec::new(alloc);
    files.push((
        String::from_str(alloc, name)?,
        Vec::from_slice(alloc, bytes)?,
    ))?;
    let fails = Vec::from_slice(alloc, fails)?;
    MemShelf::new(alloc, files, 0, 3, fails).map_err(|_| AllocError)
}

#[test]
fn a_file_in_pieces(rt: HostRuntime) -> Result<(), Fail> {
    let mut shelf = shelf_of(rt.alloc(), "a", b"order 1 1\n0 1\n", &[])?;
    for _ in 0..2 {
        let bytes = fetch(rt.alloc(), &mut shelf, "a", 14)?;
        assert_eq!(rt; bytes.as_slice(), b"order 1 1\n0 1\n".as_slice());
    }
    Ok(())
}

#[test]
fn a_file_longer_than_one_read(rt: HostRuntime) -> Result<(), Fail> {
    let long = [7; 20_000];
    let mut shelf = SafeShelf::new(&long, b"second");
    assert!(rt; fetch(rt.alloc(), &mut shelf, "any", 20_000)?.as_slice() == long.as_slice());
    assert_eq!(rt;
        fetch(rt.alloc(), &mut shelf, "any", 6)?.as_slice(),
        b"second".as_slice()
    );
    Ok(())
}

#[test]
fn no_such_file(rt: HostRuntime) -> Result<(), Fail> {
    let mut shelf = shelf_of(rt.alloc(), "a", b"text", &[])?;
    assert_eq!(rt;
        fetch(rt.alloc(), &mut shelf, "b", 14).err(),
        Some(FetchFault::Failed)
    );
    Ok(())
}

#[test]
fn one_byte_more_than_the_limit(rt: HostRuntime) -> Result<(), Fail> {
    let mut shelf = shelf_of(rt.alloc(), "a", b"1234567", &[])?;
    let refused = fetch(rt.alloc(), &mut shelf, "a", 6);
    assert_eq!(rt; refused.err(), Some(FetchFault::TooLong { taken: 7 }));
    Ok(())
}

#[test]
fn a_read_fails_in_the_middle(rt: HostRuntime) -> Result<(), Fail> {
    let mut shelf = shelf_of(rt.alloc(), "a", b"1234567", &[2])?;
    assert_eq!(rt;
        fetch(rt.alloc(), &mut shelf, "a", 9).err(),
        Some(FetchFault::Failed)
    );
    assert_eq!(rt;
        fetch(rt.alloc(), &mut shelf, "a", 9)?.as_slice(),
        b"1234567".as_slice()
    );
    Ok(())
}

// A shelf with no file, whose created file has room for 100 bytes and whose writes take 4.
fn empty_shelf(alloc: Global, fails: &[u32]) -> Result<MemShelf, Fail> {
    let files = Vec::new(alloc);
    let fails = Vec::from_slice(alloc, fails)?;
    Ok(MemShelf::new(alloc, files, 100, 4, fails)?)
}

#[test]
fn a_file_is_written_whole(rt: HostRuntime) -> Result<(), Fail> {
    let mut shelf = empty_shelf(rt.alloc(), &[])?;
    assert_eq!(rt; put_file(&mut shelf, "a", b"123456789"), Ok(()));
    assert_eq!(rt;
        shelf.made(),
        Some((b"a".as_slice(), b"123456789".as_slice()))
    );
    assert_eq!(rt; put_file(&mut shelf, "b", b""), Ok(()));
    assert_eq!(rt; shelf.made(), Some((b"b".as_slice(), b"".as_slice())));
    Ok(())
}

#[test]
fn a_write_fails_and_a_prefix_stands(rt: HostRuntime) -> Result<(), Fail> {
    let mut shelf = empty_shelf(rt.alloc(), &[2])?;
    assert_eq!(rt; put_file(&mut shelf, "a", b"123456789"), Err(Failed));
    assert_eq!(rt; shelf.made(), Some((b"a".as_slice(), b"1234".as_slice())));
    Ok(())
}
