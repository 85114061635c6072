ghost use Rattle.std.specs.Prelude.{◌≡◌, ◌<◌, ◌≤◌, ℕ, List, Option, length, take, IfOk, OnOk, OnErr};
ghost use Rattle.surw_io.specs.Content.{with_end, HoldsPrefix};
ghost use Rattle.surw_io.specs.Cause.{HasCause};

use crate::Failed;

/// A place that takes bytes.
pub trait Sink {
    /// All bytes taken, where the sink tells it.
    ghost taken: { Self → Option (List ℕ) };

    /// How often the sink has failed. It stays at its greatest value once there.
    ghost faults: { Self → ℕ };

    /// Takes some bytes from the front of a piece, at least one unless it is empty, and answers how many.
    /// After `Failed`, which comes only where `faults` rose, nothing was taken.
    fn write(&mut self, piece: &[u8]) -> Result<usize, Failed>
        ensures within { IfOk result (λ n. n ≤ length piece.now) }
        ensures some { IfOk result (λ n. 0 < length piece.now → 0 < n) }
        ensures taken { IfOk result (λ n. taken self.new ≡ with_end (taken self.old) (take n piece.now)) }
        ensures kept { OnErr result (taken self.new ≡ taken self.old) }
        ensures cause { HasCause (faults self.old) (faults self.new) result ⊥ };
}

/// Writes all bytes, each time all that are left. After `Failed`, which comes only where the sink's faults
/// rose, a prefix of them was taken.
pub fn put_all<O: Sink>(out: &mut O, bytes: &[u8]) -> Result<(), Failed>
    ensures all { OnOk result (O.taken out.new ≡ with_end (O.taken out.old) bytes.now) }
    ensures prefix { OnErr result (HoldsPrefix (O.taken out.old) bytes.now (O.taken out.new)) }
    ensures cause { HasCause (O.faults out.old) (O.faults out.new) result ⊥ }
{
    let mut rest = bytes;
    while !rest.is_empty() {
        let n = out.write(rest)?;
        let (_, after) = rest.split_at(n);
        rest = after;
    }
    Ok(())
}

#[cfg(test)]
mod tests;
