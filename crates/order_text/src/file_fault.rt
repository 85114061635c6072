ghost use Rattle.std.specs.Prelude.{◌≡◌};
ghost use Rattle.order_text.specs.FileFault.{fault_at};

use std::alloc::AllocFailed;
use surw_base::{ListFault, OutOfMemory};

/// Why bytes are no file of the job.
#[derive(Clone, Copy, Debug, PartialEq, Eq)]
pub enum FileFault {
    /// The line of this number, from 1, is the first that isn't as asked, is missing or follows the last.
    Lines { number: u64 },
    /// Memory was refused.
    OutOfMemory,
}

impl FileFault {
    // What a line of this number that lists no numbers makes of the file.
    pub(crate) fn at(fault: ListFault, number: u64) -> FileFault
        ensures { result ≡ fault_at fault number }
    {
        match fault {
            ListFault::Form => FileFault::Lines { number },
            ListFault::OutOfMemory => FileFault::OutOfMemory,
        }
    }
}

impl From<OutOfMemory> for FileFault {
    ghost use Rattle.std.specs.Prelude.{◌≡◌};
    ghost use Rattle.order_text.specs.declared.file_fault.FileFault.TheVariants.{OutOfMemory};

    ghost from_gives = { λ _ fault. fault ≡ OutOfMemory };

    fn from(_refused: OutOfMemory) -> Self {
        FileFault::OutOfMemory
    }
}

impl<T: Drop> From<AllocFailed<T>> for FileFault {
    ghost use Rattle.std.specs.Prelude.{◌≡◌};
    ghost use Rattle.order_text.specs.declared.file_fault.FileFault.TheVariants.{OutOfMemory};

    ghost from_gives = { λ _ fault. fault ≡ OutOfMemory };

    fn from(_refused: AllocFailed<T>) -> Self {
        FileFault::OutOfMemory
    }
}
