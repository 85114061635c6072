ghost use Rattle.std.specs.Prelude.{◌≡◌, ◌≢◌, ◌<◌, ◌≤◌, ℕ, Bool, List, Some, Option, length, take, drop, IfOk, OnOk, OnErr, IsTrue};
ghost use Rattle.surw_io.specs.Content.{Entry, Missing, content_of, with_prefix, emptied, IsAtEnd};
ghost use Rattle.surw_io.specs.Made.{Made, created, written};
ghost use Rattle.surw_io.specs.Cause.{HasCause, one_more};

use crate::Failed;

/// Files that are opened by name, one at a time, and read from the front; and files that are created by name,
/// one at a time, and written to their end. Neither half changes what the other tells.
pub trait Shelf {
    /// What the next open of a name gives, where the shelf tells it.
    ghost coming: { Self → List ℕ → Option Entry };

    /// What the open after that one gives.
    ghost coming_after: { Self → List ℕ → Option Entry };

    /// The bytes of the opened file that are not yet read, where the shelf tells it.
    ghost left: { Self → Option (List ℕ) };

    /// How many opens were asked. It stays at its greatest value once there.
    ghost opens: { Self → ℕ };

    /// How often an open or a read has failed. It stays at its greatest value once there.
    ghost in_faults: { Self → ℕ };

    /// How many creates were answered `Ok`, and the file created last with the bytes written to it, where the
    /// shelf tells it.
    ghost made: { Self → Option Made };

    /// Whether a create was answered `Ok`. Every shelf tells it.
    ghost ready: { Self → Bool };

    /// How often a create or a write has failed. It stays at its greatest value once there.
    ghost out_faults: { Self → ℕ };

    /// Opens the file of a name. `Failed` comes only where `in_faults` rose or there is no such file, and
    /// always where there is none; what was opened before is then closed.
    fn open(&mut self, name: &str) -> Result<(), Failed>
        ensures there { OnOk result (coming self.old name.now ≢ Some Missing) }
        ensures left { OnOk result (left self.new ≡ content_of (coming self.old name.now)) }
        ensures moves { OnOk result ((other : List ℕ) → coming self.new other ≡ coming_after self.old other) }
        ensures closed { OnErr result (left self.new ≡ emptied (left self.old)) }
        ensures stays { OnErr result ((other : List ℕ) → coming self.new other ≡ coming self.old other) }
        ensures stays_after { OnErr result ((other : List ℕ) → coming_after self.new other ≡ coming_after self.old other) }
        ensures opens { opens self.new ≡ one_more (opens self.old) }
        ensures made { made self.new ≡ made self.old }
        ensures ready { ready self.new ≡ ready self.old }
        ensures out_faults { out_faults self.new ≡ out_faults self.old }
        ensures cause { HasCause (in_faults self.old) (in_faults self.new) result (coming self.old name.now ≡ Some Missing) };

    /// Moves bytes of the opened file to the front of `into` and answers how many, 0 only at the end of the
    /// file or where `into` is empty. After `Failed`, which comes only where `in_faults` rose, none was moved.
    fn read(&mut self, into: &mut [u8]) -> Result<usize, Failed>
        ensures within { IfOk result (λ n. n ≤ length into.old) }
        ensures moved { IfOk result (λ n. left self.old ≡ with_prefix (take n into.new) (left self.new)) }
        ensures rest { IfOk result (λ n. drop n into.new ≡ drop n into.old) }
        ensures end { IfOk result (λ n. 0 < length into.old → n ≡ 0 → IsAtEnd (left self.old)) }
        ensures kept { OnErr result (left self.new ≡ left self.old) }
        ensures coming { (other : List ℕ) → coming self.new other ≡ coming self.old other }
        ensures coming_after { (other : List ℕ) → coming_after self.new other ≡ coming_after self.old other }
        ensures opens { opens self.new ≡ opens self.old }
        ensures made { made self.new ≡ made self.old }
        ensures ready { ready self.new ≡ ready self.old }
        ensures out_faults { out_faults self.new ≡ out_faults self.old }
        ensures cause { HasCause (in_faults self.old) (in_faults self.new) result ⊥ };

    /// Creates an empty file of a name, in place of one that has it, and writes go to it from then on. After
    /// `Failed`, which comes only where `out_faults` rose, none was created.
    fn create(&mut self, name: &str) -> Result<(), Failed>
        ensures made { OnOk result (made self.new ≡ created (made self.old) name.now) }
        ensures ready { OnOk result (IsTrue (ready self.new)) }
        ensures kept { OnErr result (made self.new ≡ made self.old) }
        ensures as_ready { OnErr result (ready self.new ≡ ready self.old) }
        ensures coming { (other : List ℕ) → coming self.new other ≡ coming self.old other }
        ensures coming_after { (other : List ℕ) → coming_after self.new other ≡ coming_after self.old other }
        ensures left { left self.new ≡ left self.old }
        ensures opens { opens self.new ≡ opens self.old }
        ensures in_faults { in_faults self.new ≡ in_faults self.old }
        ensures cause { HasCause (out_faults self.old) (out_faults self.new) result ⊥ };

    /// Writes some bytes from the front of a piece behind those of the file created last, at least one unless
    /// the piece is empty, and answers how many. After `Failed`, which comes only where `out_faults` rose, none
    /// was written.
    fn write(&mut self, piece: &[u8]) -> Result<usize, Failed>
        requires { IsTrue (ready self.old) }
        ensures within { IfOk result (λ n. n ≤ length piece.now) }
        ensures some { IfOk result (λ n. 0 < length piece.now → 0 < n) }
        ensures made { IfOk result (λ n. made self.new ≡ written (made self.old) (take n piece.now)) }
        ensures kept { OnErr result (made self.new ≡ made self.old) }
        ensures ready { ready self.new ≡ ready self.old }
        ensures coming { (other : List ℕ) → coming self.new other ≡ coming self.old other }
        ensures coming_after { (other : List ℕ) → coming_after self.new other ≡ coming_after self.old other }
        ensures left { left self.new ≡ left self.old }
        ensures opens { opens self.new ≡ opens self.old }
        ensures in_faults { in_faults self.new ≡ in_faults self.old }
        ensures cause { HasCause (out_faults self.old) (out_faults self.new) result ⊥ };
}
