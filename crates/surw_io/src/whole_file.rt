ghost use Rattle.std.specs.Prelude.{◌≡◌, ◌⊎◌, ◌+◌, ◌^◌, ◌<◌, ◌≤◌, ℕ, List, length, IfOk, IfErr, OnOk, OnErr, IsTrue};
ghost use Rattle.surw_io.specs.Content.{IsFileOf};
ghost use Rattle.surw_io.specs.Made.{with_file, HoldsFilePrefix};
ghost use Rattle.surw_io.specs.Cause.{HasCause, one_more};
ghost use Rattle.surw_io.specs.Fetch.{IsRefused, LeavesRest};

use crate::{Failed, Shelf};
use std::alloc::{AllocError, Global};
use std::error::Error;
use std::fmt;

// The most bytes that one read asks for.
pub(crate) const READ_SIZE: usize = 8_192;

/// Why a file was not fetched.
#[derive(Clone, Copy, Debug, PartialEq, Eq)]
pub enum FetchFault {
    /// The open or a read failed, or there is no such file.
    Failed,
    /// The file is longer than the limit: `taken` bytes were read, one more than the limit.
    TooLong { taken: u32 },
    /// Memory was refused.
    OutOfMemory,
}

impl fmt::Display for FetchFault {
    fn fmt<W: fmt::Write>(&self, f: &mut fmt::Formatter<W>) -> fmt::Result {
        match self {
            FetchFault::Failed => f.write_str("the file was not read"),
            FetchFault::TooLong { taken } => write!(f, "the file has {taken} bytes or more"),
            FetchFault::OutOfMemory => f.write_str("out of memory"),
        }
    }
}

impl Error for FetchFault {}

impl From<Failed> for FetchFault {
    ghost use Rattle.std.specs.Prelude.{◌≡◌};
    ghost use Rattle.surw_io.specs.declared.whole_file.FetchFault.TheVariants.{Failed};

    ghost from_gives = { λ _ fault. fault ≡ Failed };

    fn from(_failed: Failed) -> Self {
        FetchFault::Failed
    }
}

impl From<AllocError> for FetchFault {
    ghost use Rattle.std.specs.Prelude.{◌≡◌};
    ghost use Rattle.surw_io.specs.declared.whole_file.FetchFault.TheVariants.{OutOfMemory};

    ghost from_gives = { λ _ fault. fault ≡ OutOfMemory };

    fn from(_refused: AllocError) -> Self {
        FetchFault::OutOfMemory
    }
}

/// The bytes of a file of at most `limit` bytes. The name is opened once, and at most `limit + 1` bytes are
/// read.
pub fn fetch<F: Shelf>(
    alloc: Global,
    shelf: &mut F,
    name: &str,
    limit: u32,
) -> Result<Vec<u8>, FetchFault>
    requires { limit + 1 < 2 ^ 32 }
    ensures whole { IfOk result (λ bytes. IsFileOf (F.coming shelf.old name.now) bytes.items) }
    ensures short { IfOk result (λ bytes. length bytes.items ≤ limit) }
    ensures moves { OnOk result ((other : List ℕ) → F.coming shelf.new other ≡ F.coming_after shelf.old other) }
    ensures calm { OnOk result (F.in_faults shelf.new ≡ F.in_faults shelf.old) }
    ensures refused { IfErr result (IsRefused (F.coming shelf.old name.now) limit (F.in_faults shelf.old) (F.in_faults shelf.new)) }
    ensures never_falls { F.in_faults shelf.old ≤ F.in_faults shelf.new }
    ensures opened_once { F.opens shelf.new ≡ one_more (F.opens shelf.old) }
    ensures rest { LeavesRest (F.coming shelf.old name.now) limit (F.left shelf.new) result }
    ensures made { F.made shelf.new ≡ F.made shelf.old }
    ensures ready { F.ready shelf.new ≡ F.ready shelf.old }
    ensures out_faults { F.out_faults shelf.new ≡ F.out_faults shelf.old }
{
    shelf.open(name)?;
    let most = limit as usize;
    let mut bytes = Vec::new(alloc);
    let mut buffer = [0; READ_SIZE];
    loop {
        let asked = READ_SIZE.min(most + 1 - bytes.len());
        let n = shelf.read(&mut buffer[..asked])?;
        if n == 0 {
            return Ok(bytes);
        }
        if n > most - bytes.len() {
            return Err(FetchFault::TooLong { taken: limit + 1 });
        }
        bytes.extend_from_slice(&buffer[..n])?;
    }
}

/// Creates a file of these bytes: one create, and then writes that are each offered all bytes that are left.
/// After `Failed`, which comes only where `out_faults` rose, none was created, or one that has a prefix of them.
pub fn put_file<F: Shelf>(shelf: &mut F, name: &str, bytes: &[u8]) -> Result<(), Failed>
    ensures whole { OnOk result (F.made shelf.new ≡ with_file (F.made shelf.old) name.now bytes.now) }
    ensures prefix { OnErr result ((F.made shelf.new ≡ F.made shelf.old) ⊎ HoldsFilePrefix (F.made shelf.old) name.now bytes.now (F.made shelf.new)) }
    ensures ready { OnOk result (IsTrue (F.ready shelf.new)) }
    ensures coming { (other : List ℕ) → F.coming shelf.new other ≡ F.coming shelf.old other }
    ensures coming_after { (other : List ℕ) → F.coming_after shelf.new other ≡ F.coming_after shelf.old other }
    ensures left { F.left shelf.new ≡ F.left shelf.old }
    ensures opens { F.opens shelf.new ≡ F.opens shelf.old }
    ensures in_faults { F.in_faults shelf.new ≡ F.in_faults shelf.old }
    ensures cause { HasCause (F.out_faults shelf.old) (F.out_faults shelf.new) result ⊥ }
{
    shelf.create(name)?;
    let mut rest = bytes;
    while !rest.is_empty() {
        let n = shelf.write(rest)?;
        let (_, after) = rest.split_at(n);
        rest = after;
    }
    Ok(())
}

#[cfg(test)]
mod tests;
