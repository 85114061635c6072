ghost use Rattle.std.specs.Prelude.{None};

use super::*;
use crate::MemSink;
use std::test::Fail;

// Takes one byte at a time, and notes how many it was offered.
#[derive(Drop)]
struct OneByOne {
    offered: Vec<usize>,
}

impl Sink for OneByOne {
    ghost taken = { λ _. None };

    ghost faults = { λ _. 0 };

    fn write(&mut self, piece: &[u8]) -> Result<usize, Failed> {
        let _ = self.offered.push(piece.len());
        Ok(piece.len().min(1))
    }
}

#[test]
fn each_write_is_offered_all_that_are_left(rt: HostRuntime) {
    let mut out = OneByOne {
        offered: Vec::new(rt.alloc()),
    };
    assert_eq!(rt; put_all(&mut out, b"12345"), Ok(()));
    assert_eq!(rt; out.offered.as_slice(), [5, 4, 3, 2, 1].as_slice());
}

#[test]
fn a_write_fails_in_the_middle(rt: HostRuntime) -> Result<(), Fail> {
    let fails = Vec::from_slice(rt.alloc(), &[1])?;
    let mut out = MemSink::new(rt.alloc(), 100, 4, fails)?;
    assert_eq!(rt; put_all(&mut out, b"123456789"), Err(Failed));
    assert_eq!(rt; out.taken(), b"1234".as_slice());
    assert_eq!(rt; put_all(&mut out, b"56789"), Ok(()));
    assert_eq!(rt; out.taken(), b"123456789".as_slice());
    Ok(())
}

#[test]
fn no_more_than_its_room(rt: HostRuntime) -> Result<(), Fail> {
    let mut out = MemSink::new(rt.alloc(), 6, 4, Vec::new(rt.alloc()))?;
    assert_eq!(rt; put_all(&mut out, b"12345678"), Err(Failed));
    assert_eq!(rt; out.taken(), b"123456".as_slice());
    assert_eq!(rt; put_all(&mut out, b""), Ok(()));
    Ok(())
}
