use std::alloc::AllocFailed;

/// Why a text is no saved run: the first fault from the front. Lines are numbered from 1.
#[derive(Clone, Copy, Debug, PartialEq, Eq)]
pub enum ReplayFault {
    /// The text doesn't begin with the first line.
    Header,
    /// The line of this number isn't what has to stand there.
    Line { number: u32 },
    /// The line of this number is an entry more than `STEPS`.
    TooMany { number: u32 },
    /// The text ends before the line of the end.
    NoEnd,
    /// Memory was refused.
    OutOfMemory,
}

impl<T: Drop> From<AllocFailed<T>> for ReplayFault {
    ghost use Rattle.std.specs.Prelude.{◌≡◌};
    ghost use Rattle.replay_text.specs.declared.replay_fault.ReplayFault.TheVariants.{OutOfMemory};

    ghost from_gives = { λ _ fault. fault ≡ OutOfMemory };

    fn from(_refused: AllocFailed<T>) -> Self {
        ReplayFault::OutOfMemory
    }
}
