ghost use Rattle.std.specs.Prelude.{◌≡◌, ◌+◌, ◌≤◌, [], ◌++◌, length};
ghost use Rattle.std.specs.Fmt.{decimal};

use itoa::write_digits;
use std::marker::Model;

/// The most bytes of a line.
pub const LINE_ROOM: usize = 160;

/// The most digits of a number below 2^64.
pub const DIGITS: usize = 20;

/// A line of text that is written from its end to its front, in room of its own. A contract sees its bytes.
#[derive(Debug, Drop)]
pub struct Line {
    bytes: [u8; LINE_ROOM],
    start: usize,
}

impl Model for Line {
    ghost use Rattle.std.specs.Prelude.{ℕ, List, ◌≤◌, drop};
    ghost use Rattle.line_text.specs.declared.line.TheConstants.{LINE_ROOM};

    ghost Value = { List ℕ };

    ghost view = { λ line. drop line.start line.bytes };

    ghost invariant = { λ line. line.start ≤ LINE_ROOM };
}

impl Line {
    /// A line without bytes.
    pub fn new() -> Line
        ensures { result ≡ [] }
    {
        Line {
            bytes: [0; LINE_ROOM],
            start: LINE_ROOM,
        }
    }

    /// Takes all bytes out.
    #[inline]
    pub fn clear(&mut self)
        ensures { self.new ≡ [] }
    {
        self.start = LINE_ROOM;
    }

    /// Puts bytes before those that it has.
    #[inline]
    pub fn put(&mut self, bytes: &[u8])
        requires { length bytes.now + length self.old ≤ LINE_ROOM }
        ensures { self.new ≡ bytes.now ++ self.old }
    {
        let start = self.start - bytes.len();
        self.bytes[start..self.start].copy_from_slice(bytes);
        self.start = start;
    }

    /// Puts the decimal digits of a number before the bytes that it has.
    #[inline]
    pub fn put_number(&mut self, n: u64)
        requires { DIGITS + length self.old ≤ LINE_ROOM }
        ensures digits { self.new ≡ decimal n ++ self.old }
        ensures short { length self.new ≤ DIGITS + length self.old }
    {
        self.start = write_digits(n, &mut self.bytes, self.start);
    }

    /// Its bytes.
    #[inline]
    pub fn as_slice(&self) -> &[u8]
        ensures { result.now ≡ self.now }
    {
        &self.bytes[self.start..]
    }
}

#[cfg(test)]
mod tests {
    use super::*;

    #[test]
    fn a_line_of_words_and_numbers(rt: HostRuntime) {
        let mut line = Line::new();
        line.put(b"\n");
        line.put_number(u64::MAX);
        line.put(b" of ");
        line.put_number(0);
        line.put(b"step ");
        assert_eq!(rt;
            line.as_slice(),
            b"step 0 of 18446744073709551615\n".as_slice()
        );
        line.clear();
        line.put_number(907);
        assert_eq!(rt; line.as_slice(), b"907".as_slice());
    }

    #[test]
    fn a_line_is_filled(rt: HostRuntime) {
        let mut line = Line::new();
        line.put(&[b'x'; LINE_ROOM - DIGITS]);
        line.put_number(u64::MAX);
        assert_eq!(rt; line.as_slice().len(), LINE_ROOM);
        assert_eq!(rt;
            &line.as_slice()[..22],
            b"18446744073709551615xx".as_slice()
        );
    }
}
