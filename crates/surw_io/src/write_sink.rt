ghost use Rattle.std.specs.Prelude.{◌≡◌};

use crate::{Failed, Sink, SteadyWrite};

/// A sink over a writer. It tells what the writer tells of its contents, and counts as a fault each write that
/// was refused or took nothing of some bytes.
#[derive(Drop)]
pub struct WriteSink<W: SteadyWrite + Drop> {
    writer: W,
    faults: u64,
}

impl<W: SteadyWrite + Drop> WriteSink<W> {
    /// A sink over this writer.
    pub fn over(writer: W) -> WriteSink<W>
        ensures taken { ⟦<WriteSink<W> as Sink>⟧.taken result ≡ W.contents writer }
        ensures faults { ⟦<WriteSink<W> as Sink>⟧.faults result ≡ 0 }
    {
        WriteSink { writer, faults: 0 }
    }
}

impl<W: SteadyWrite + Drop> Sink for WriteSink<W> {
    ghost taken = { λ sink. W.contents sink.writer };

    ghost faults = { λ sink. sink.faults };

    fn write(&mut self, piece: &[u8]) -> Result<usize, Failed> {
        match self.writer.write(piece) {
            Ok(n) if n > 0 || piece.is_empty() => Ok(n),
            _ => {
                self.faults = self.faults.saturating_add(1);
                Err(Failed)
            }
        }
    }
}

#[cfg(test)]
mod tests {
    use super::*;
    use crate::put_all;

    #[test]
    fn a_list_of_bytes_takes_all(rt: HostRuntime) {
        let mut out = WriteSink::over(Vec::new(rt.alloc()));
        assert_eq!(rt; put_all(&mut out, b"order 0 "), Ok(()));
        assert_eq!(rt; put_all(&mut out, b"0 1\n"), Ok(()));
        assert_eq!(rt; out.writer.as_slice(), b"order 0 0 1\n".as_slice());
        assert_eq!(rt; out.faults, 0);
    }
}
