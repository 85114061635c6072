ghost use Rattle.std.specs.Prelude.{◌≡◌, ℕ, ◌≤◌, All, List, length, sum, slice_index, IfOk, IfErr, OnOk, MatchOption, MatchResult};
ghost use Rattle.draw_split.specs.JoinFault.{IsRefused, IsOutside, times, offsets_of};
ghost use Rattle.draw_split.specs.Named.{Names};
ghost use Rattle.draw_split.specs.Rooms.{Fits, IsInRoom, AreInRooms};

use crate::weights::count_of;
use crate::{Split, Weights, join_one};
use std::alloc::{AllocError, AllocFailed, Global};
use std::error::Error;
use std::fmt;
use surw_base::{STEPS, THREADS, ThreadNo};

/// Why an order with offsets is named by no draws.
#[derive(Clone, Copy, Debug, PartialEq, Eq)]
pub enum JoinFault {
    /// The thread is counted `counted` times, and the order holds it `seen` times. It is the least such
    /// thread.
    Miscount {
        thread: ThreadNo,
        counted: u32,
        seen: u32,
    },
    /// The thread is counted `counted` times, and has `seen` offsets. It is the least such thread.
    Offsets {
        thread: ThreadNo,
        counted: u32,
        seen: u32,
    },
    /// The thread's offset at `place`, from 0, is `kept` and not below `below`, its count less the place.
    /// It is the first such offset of the least such thread.
    Offset {
        thread: ThreadNo,
        place: u32,
        kept: u32,
        below: u32,
    },
    /// Memory was refused.
    OutOfMemory,
}

impl fmt::Display for JoinFault {
    fn fmt<W: fmt::Write>(&self, f: &mut fmt::Formatter<W>) -> fmt::Result {
        match *self {
            JoinFault::Miscount {
                thread,
                counted,
                seen,
            } => {
                write!(
                    f,
                    "thread {} is counted {counted} and stands {seen} times in the order",
                    thread.get()
                )
            }
            JoinFault::Offsets {
                thread,
                counted,
                seen,
            } => {
                write!(
                    f,
                    "thread {} is counted {counted} and has {seen} offsets",
                    thread.get()
                )
            }
            JoinFault::Offset {
                thread,
                place,
                kept,
                below,
            } => {
                write!(
                    f,
                    "offset {place} of thread {} is {kept} and not below {below}",
                    thread.get()
                )
            }
            JoinFault::OutOfMemory => write!(f, "out of memory"),
        }
    }
}

impl Error for JoinFault {}

impl From<AllocError> for JoinFault {
    ghost use Rattle.std.specs.Prelude.{◌≡◌};
    ghost use Rattle.draw_split.specs.declared.joining.JoinFault.TheVariants.{OutOfMemory};

    ghost from_gives = { λ _ fault. fault ≡ OutOfMemory };

    fn from(_refused: AllocError) -> Self {
        JoinFault::OutOfMemory
    }
}

impl<T: Drop> From<AllocFailed<T>> for JoinFault {
    ghost use Rattle.std.specs.Prelude.{◌≡◌};
    ghost use Rattle.draw_split.specs.declared.joining.JoinFault.TheVariants.{OutOfMemory};

    ghost from_gives = { λ _ fault. fault ≡ OutOfMemory };

    fn from(_refused: AllocFailed<T>) -> Self {
        JoinFault::OutOfMemory
    }
}

/// The draws that name this order and these offsets, of which there is one list. A thread past the counts
/// is counted 0. `Miscount` comes exactly where the order doesn't fit, else `Offsets` exactly where a
/// thread has more or fewer offsets than it is counted, else `Offset` exactly where an offset isn't in its
/// room; all three before any memory is taken.
pub fn draws_of(alloc: Global, counts: &[u32], split: &Split) -> Result<Vec<u64>, JoinFault>
    requires threads { length counts.now ≤ THREADS }
    requires steps { sum counts.now ≤ STEPS }
    requires order { length split.now.order ≤ STEPS }
    requires offsets { All (λ list. length list ≤ STEPS) split.now.offsets }
    ensures ok { IfOk result (λ draws. Names counts.now draws.items split.now) }
    ensures only { (draws : List ℕ) → Names counts.now draws split.now
        → MatchResult result (λ v. v.items ≡ draws) (λ e. e ≡ JoinFault.OutOfMemory) }
    ensures refused { IfErr result (IsRefused counts.now split.now) }
{
    checked(counts, split)?;
    let mut left = Weights::new(counts);
    let mut draws = Vec::with_capacity(alloc, split.order().len())?;
    for thread in split.order() {
        let used = count_of(counts, *thread) - left.left(*thread);
        let offset = split.offsets(*thread)[used as usize];
        draws.push(join_one(left.as_slice(), *thread, offset))?;
        left.take(*thread);
    }
    Ok(draws)
}

// Refuses what no draws name.
fn checked(counts: &[u32], split: &Split) -> Result<(), JoinFault>
    requires threads { length counts.now ≤ THREADS }
    requires order { length split.now.order ≤ STEPS }
    requires offsets { All (λ list. length list ≤ STEPS) split.now.offsets }
    ensures fits { OnOk result (Fits counts.now split.now.order) }
    ensures rooms { OnOk result (AreInRooms counts.now split.now.offsets) }
    ensures refused { IfErr result (IsRefused counts.now split.now) }
{
    fitting(counts, split)?;
    filled(counts, split)?;
    in_rooms(counts, split)
}

// Refuses an order that doesn't fit.
fn fitting(counts: &[u32], split: &Split) -> Result<(), JoinFault>
    requires threads { length counts.now ≤ THREADS }
    requires order { length split.now.order ≤ STEPS }
    ensures ok { OnOk result (Fits counts.now split.now.order) }
    ensures refused { IfErr result (IsRefused counts.now split.now) }
{
    let times = times_of(split.order());
    for number in 0..THREADS {
        let thread = ThreadNo::new(number as u8).unwrap();
        let counted = count_of(counts, thread);
        let seen = times[number];
        if counted != seen {
            return Err(JoinFault::Miscount {
                thread,
                counted,
                seen,
            });
        }
    }
    Ok(())
}

// How often an order holds each thread.
fn times_of(order: &[ThreadNo]) -> [u32; THREADS]
    requires { length order.now ≤ STEPS }
    ensures threads { length result ≡ THREADS }
    ensures times { (thread : ℕ) → slice_index result thread ≡ times order.now thread }
{
    let mut times = [0; THREADS];
    for thread in order {
        times[usize::from(thread.get())] += 1;
    }
    times
}

// Refuses offsets that are more or fewer than counted.
fn filled(counts: &[u32], split: &Split) -> Result<(), JoinFault>
    requires threads { length counts.now ≤ THREADS }
    requires offsets { All (λ list. length list ≤ STEPS) split.now.offsets }
    requires fits { Fits counts.now split.now.order }
    ensures ok { OnOk result ((thread : ℕ) → length (offsets_of split.now thread) ≡ slice_index counts.now thread) }
    ensures refused { IfErr result (IsRefused counts.now split.now) }
{
    for number in 0..THREADS {
        let thread = ThreadNo::new(number as u8).unwrap();
        let counted = count_of(counts, thread);
        let seen = split.offsets(thread).len() as u32;
        if counted != seen {
            return Err(JoinFault::Offsets {
                thread,
                counted,
                seen,
            });
        }
    }
    Ok(())
}

// Refuses offsets that are not in their rooms.
fn in_rooms(counts: &[u32], split: &Split) -> Result<(), JoinFault>
    requires offsets { All (λ list. length list ≤ STEPS) split.now.offsets }
    requires fits { Fits counts.now split.now.order }
    requires filled { (thread : ℕ) → length (offsets_of split.now thread) ≡ slice_index counts.now thread }
    ensures ok { OnOk result (AreInRooms counts.now split.now.offsets) }
    ensures refused { IfErr result (IsRefused counts.now split.now) }
{
    for number in 0..THREADS {
        let thread = ThreadNo::new(number as u8).unwrap();
        let offsets = split.offsets(thread);
        if let Some(place) = first_outside(offsets) {
            let kept = offsets[place];
            let below = (offsets.len() - place) as u32;
            let place = place as u32;
            return Err(JoinFault::Offset {
                thread,
                place,
                kept,
                below,
            });
        }
    }
    Ok(())
}

// The first of a thread's offsets that isn't in its room, where the thread is counted as often as it has
// offsets.
fn first_outside(offsets: &[u32]) -> Option<usize>
    ensures { MatchOption result (IsInRoom (length offsets.now) offsets.now) (IsOutside offsets.now) }
{
    for (place, offset) in offsets.iter().enumerate() {
        if *offset as usize >= offsets.len() - place {
            return Some(place);
        }
    }
    None
}

#[cfg(test)]
mod tests;
