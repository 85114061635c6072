ghost use Rattle.std.specs.Prelude.{◌≡◌, ◌≤◌, length, sum, IfOk, IfErr, OnOk};
ghost use Rattle.draw_split.specs.DrawList.{IsDrawList};
ghost use Rattle.draw_split.specs.Named.{Names};
ghost use Rattle.draw_split.specs.Rooms.{Fits, AreInRooms};
ghost use Rattle.draw_split.specs.SplitFault.{IsRefused};

use crate::{Split, Weights, split_one};
use std::alloc::{AllocError, AllocFailed, Global};
use std::error::Error;
use std::fmt;
use surw_base::{OutOfMemory, STEPS, THREADS};

/// Why draws name no order.
#[derive(Clone, Copy, Debug, PartialEq, Eq)]
pub enum SplitFault {
    /// There are `kept` draws, where the counts ask for `needed`.
    Length { kept: u64, needed: u64 },
    /// The draw at `place`, from 0, is `kept` and not below `below`, the number of places that are left
    /// there. It is the first such draw.
    Large { place: u32, kept: u64, below: u64 },
    /// Memory was refused.
    OutOfMemory,
}

impl fmt::Display for SplitFault {
    fn fmt<W: fmt::Write>(&self, f: &mut fmt::Formatter<W>) -> fmt::Result {
        match self {
            SplitFault::Length { kept, needed } => {
                write!(f, "{kept} draws where {needed} are needed")
            }
            SplitFault::Large { place, kept, below } => {
                write!(f, "draw {place} is {kept} and not below {below}")
            }
            SplitFault::OutOfMemory => write!(f, "out of memory"),
        }
    }
}

impl Error for SplitFault {}

impl From<OutOfMemory> for SplitFault {
    ghost use Rattle.std.specs.Prelude.{◌≡◌};
    ghost use Rattle.draw_split.specs.declared.naming.SplitFault.TheVariants.{OutOfMemory};

    ghost from_gives = { λ _ fault. fault ≡ OutOfMemory };

    fn from(_refused: OutOfMemory) -> Self {
        SplitFault::OutOfMemory
    }
}

impl From<AllocError> for SplitFault {
    ghost use Rattle.std.specs.Prelude.{◌≡◌};
    ghost use Rattle.draw_split.specs.declared.naming.SplitFault.TheVariants.{OutOfMemory};

    ghost from_gives = { λ _ fault. fault ≡ OutOfMemory };

    fn from(_refused: AllocError) -> Self {
        SplitFault::OutOfMemory
    }
}

impl<T: Drop> From<AllocFailed<T>> for SplitFault {
    ghost use Rattle.std.specs.Prelude.{◌≡◌};
    ghost use Rattle.draw_split.specs.declared.naming.SplitFault.TheVariants.{OutOfMemory};

    ghost from_gives = { λ _ fault. fault ≡ OutOfMemory };

    fn from(_refused: AllocFailed<T>) -> Self {
        SplitFault::OutOfMemory
    }
}

/// The order and the offsets that draws name. `Length` comes exactly where there are more or fewer draws
/// than the counts' sum, else `Large` exactly where a draw is too large, at the first; both before any
/// memory is taken.
pub fn order_of(alloc: Global, counts: &[u32], draws: &[u64]) -> Result<Split, SplitFault>
    requires threads { length counts.now ≤ THREADS }
    requires steps { sum counts.now ≤ STEPS }
    ensures ok { IfOk result (Names counts.now draws.now) }
    ensures long { IfOk result (λ split. length split.order ≡ length draws.now) }
    ensures fits { IfOk result (λ split. Fits counts.now split.order) }
    ensures rooms { IfOk result (λ split. AreInRooms counts.now split.offsets) }
    ensures refused { IfErr result (IsRefused counts.now draws.now) }
{
    let mut left = Weights::new(counts);
    checked(&left, draws)?;
    let mut split = Split::with_room(alloc, counts, left.sum())?;
    for draw in draws {
        let (thread, offset) = split_one(left.as_slice(), *draw);
        left.take(thread);
        split.push(thread, offset)?;
    }
    Ok(split)
}

// Refuses draws that are no draw list of these counts.
fn checked(counts: &Weights, draws: &[u64]) -> Result<(), SplitFault>
    ensures ok { OnOk result (IsDrawList counts.now draws.now) }
    ensures refused { IfErr result (IsRefused counts.now draws.now) }
{
    let needed = counts.sum();
    let kept = draws.len() as u64;
    if kept != needed {
        return Err(SplitFault::Length { kept, needed });
    }
    for (place, draw) in draws.iter().enumerate() {
        let below = needed - place as u64;
        if *draw >= below {
            let place = place as u32;
            let kept = *draw;
            return Err(SplitFault::Large { place, kept, below });
        }
    }
    Ok(())
}

#[cfg(test)]
mod tests;
