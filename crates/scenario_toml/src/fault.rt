use crate::{KeyName, NameText};
use std::alloc::{AllocError, AllocFailed};
use surw_base::OutOfMemory;

/// Why a scenario file is refused.
#[derive(Debug, Drop)]
pub enum ScenarioFault {
    /// The bytes aren't TOML.
    NotToml,
    /// A key that has to be there isn't.
    Missing {
        /// The key.
        key: KeyName,
    },
    /// A value isn't of its key's kind.
    WrongKind {
        /// The key.
        key: KeyName,
    },
    /// A table has a key that means nothing there.
    Unknown {
        /// The key.
        key: KeyName,
    },
    /// A number, the length of an array or the sum of the counts is out of its range.
    Range {
        /// The key.
        key: KeyName,
        /// The number that the file has.
        kept: i64,
        /// The least that is allowed.
        least: i64,
        /// The most that is allowed.
        most: i64,
    },
    /// A text is none of the words that its key can have.
    Name {
        /// The key.
        key: KeyName,
        /// The text.
        text: NameText,
    },
    /// Memory was refused.
    OutOfMemory,
}

impl From<OutOfMemory> for ScenarioFault {
    ghost use Rattle.std.specs.Prelude.{◌≡◌};
    ghost use Rattle.scenario_toml.specs.declared.fault.ScenarioFault.TheVariants.{OutOfMemory};

    ghost from_gives = { λ _ fault. fault ≡ OutOfMemory };

    fn from(_refused: OutOfMemory) -> Self {
        ScenarioFault::OutOfMemory
    }
}

impl From<AllocError> for ScenarioFault {
    ghost use Rattle.std.specs.Prelude.{◌≡◌};
    ghost use Rattle.scenario_toml.specs.declared.fault.ScenarioFault.TheVariants.{OutOfMemory};

    ghost from_gives = { λ _ fault. fault ≡ OutOfMemory };

    fn from(_refused: AllocError) -> Self {
        ScenarioFault::OutOfMemory
    }
}

impl<T: Drop> From<AllocFailed<T>> for ScenarioFault {
    ghost use Rattle.std.specs.Prelude.{◌≡◌};
    ghost use Rattle.scenario_toml.specs.declared.fault.ScenarioFault.TheVariants.{OutOfMemory};

    ghost from_gives = { λ _ fault. fault ≡ OutOfMemory };

    fn from(_refused: AllocFailed<T>) -> Self {
        ScenarioFault::OutOfMemory
    }
}
