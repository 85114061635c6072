ghost use Rattle.std.specs.Prelude.{◌≡◌, ℕ, Option};

use surw_base::ThreadNo;

/// A state that is changed in rounds, and names the thread that has the next one.
pub trait Rounded: Drop {
    /// The rounds so far.
    ghost round_of: { Self → ℕ };

    /// The thread that has the next round. None where no round follows.
    ghost granted_of: { Self → Option ℕ };

    /// How many rounds it has had.
    fn round(&self) -> u32
        ensures { result ≡ round_of self.now };

    /// The thread that has the next round. None where no round follows.
    fn granted(&self) -> Option<ThreadNo>
        ensures { result ≡ granted_of self.now };
}
