ghost use Rattle.std.specs.Prelude.{◌≡◌, ℕ, ◌<◌, ◌≤◌, length, slice_index, sum};
ghost use Rattle.draw_split.specs.Bag.{pick, offset as offset_of};

use surw_base::{THREADS, ThreadNo};

/// The thread at a place of the bag of these counts, and its offset there: the number of the same thread's
/// places before it.
pub fn split_one(left: &[u32], draw: u64) -> (ThreadNo, u32)
    requires threads { length left.now ≤ THREADS }
    requires drawn { draw < sum left.now }
    ensures thread { result.0 ≡ pick left.now draw }
    ensures offset { result.1 ≡ offset_of left.now draw }
{
    let mut rest = draw;
    for (thread, count) in left.iter().enumerate() {
        let count = u64::from(*count);
        if rest < count {
            return (ThreadNo::new(thread as u8).unwrap(), rest as u32);
        }
        rest -= count;
    }
    unreachable!()
}

/// The place of the bag of these counts at which this thread stands with this offset, which is below the
/// thread's count: the inverse of `split_one`.
pub fn join_one(left: &[u32], thread: ThreadNo, offset: u32) -> u64
    requires threads { length left.now ≤ THREADS }
    requires room { offset < slice_index left.now thread }
    ensures drawn { result < sum left.now }
    ensures thread { pick left.now result ≡ thread }
    ensures offset { offset_of left.now result ≡ offset }
    ensures only { (draw : ℕ) → draw < sum left.now → pick left.now draw ≡ thread → offset_of left.now draw ≡ offset → draw ≡ result }
{
    let (lower, _) = left.split_at(usize::from(thread.get()));
    let mut draw = u64::from(offset);
    for count in lower {
        draw += u64::from(*count);
    }
    draw
}
