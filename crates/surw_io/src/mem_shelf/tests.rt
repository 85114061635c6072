use super::*;
use std::test::Fail;

// A shelf with no file, whose created file has room for 6 bytes and whose writes take 4.
fn empty_shelf(alloc: Global, fails: &[u32]) -> Result<MemShelf, Fail> {
    let files = Vec::new(alloc);
    Ok(MemShelf::new(alloc, files, 6, 4, Vec::from_slice(alloc, fails)?)?)
}

#[test]
fn no_more_than_its_piece_and_its_room(rt: HostRuntime) -> Result<(), Fail> {
    let mut shelf = empty_shelf(rt.alloc(), &[])?;
    assert!(rt; shelf.made().is_none());
    assert_eq!(rt; shelf.create("a"), Ok(()));
    assert_eq!(rt; shelf.made(), Some((b"a".as_slice(), b"".as_slice())));
    assert_eq!(rt; shelf.write(b"12345678"), Ok(4));
    assert_eq!(rt; shelf.write(b"5678"), Ok(2));
    assert_eq!(rt; shelf.write(b""), Ok(0));
    assert_eq!(rt; shelf.write(b"78"), Err(Failed));
    assert_eq!(rt; shelf.made(), Some((b"a".as_slice(), b"123456".as_slice())));
    assert_eq!(rt; (shelf.in_faults, shelf.out_faults), (0, 1));
    Ok(())
}

#[test]
fn a_created_file_is_empty_and_not_opened(rt: HostRuntime) -> Result<(), Fail> {
    let mut shelf = empty_shelf(rt.alloc(), &[])?;
    assert_eq!(rt; shelf.create("long name"), Ok(()));
    assert_eq!(rt; shelf.write(b"123456"), Ok(4));
    assert_eq!(rt; shelf.create("b"), Ok(()));
    assert_eq!(rt; shelf.made(), Some((b"b".as_slice(), b"".as_slice())));
    assert_eq!(rt; shelf.open("b"), Err(Failed));
    assert_eq!(rt; shelf.in_faults, 0);
    Ok(())
}

#[test]
fn a_listed_create_fails(rt: HostRuntime) -> Result<(), Fail> {
    let mut shelf = empty_shelf(rt.alloc(), &[1, 3])?;
    assert_eq!(rt; shelf.open("a"), Err(Failed));
    assert_eq!(rt; shelf.create("a"), Err(Failed));
    assert!(rt; shelf.made().is_none());
    assert_eq!(rt; shelf.create("a"), Ok(()));
    assert_eq!(rt; shelf.create("b"), Err(Failed));
    assert_eq!(rt; shelf.made(), Some((b"a".as_slice(), b"".as_slice())));
    assert_eq!(rt; (shelf.in_faults, shelf.out_faults), (0, 2));
    Ok(())
}

#[test]
fn a_name_of_4096_bytes_is_the_longest(rt: HostRuntime) -> Result<(), Fail> {
    let mut shelf = empty_shelf(rt.alloc(), &[])?;
    let name = "n".repeat(rt.alloc(), 4_096)?;
    assert_eq!(rt; shelf.create(name.as_str()), Ok(()));
    let longer = "n".repeat(rt.alloc(), 4_097)?;
    assert_eq!(rt; shelf.create(longer.as_str()), Err(Failed));
    assert!(rt; shelf.made() == Some((name.as_bytes(), b"".as_slice())));
    assert_eq!(rt; shelf.out_faults, 1);
    Ok(())
}
