ghost use Rattle.std.specs.Prelude.{◌≡◌, None, length};

use crate::{Failed, Sink};

/// A sink that takes every byte, never fails and tells nothing.
#[derive(Drop)]
pub struct SafeSink {}

impl SafeSink {
    /// A new sink.
    pub fn new() -> SafeSink
        ensures told { ⟦<SafeSink as Sink>⟧.taken result ≡ None }
        ensures faults { ⟦<SafeSink as Sink>⟧.faults result ≡ 0 }
    {
        SafeSink {}
    }
}

impl Sink for SafeSink {
    ghost taken = { λ _. None };

    ghost faults = { λ _. 0 };

    fn write(&mut self, piece: &[u8]) -> Result<usize, Failed>
        ensures { result ≡ Ok (length piece.now) }
    {
        Ok(piece.len())
    }
}
