ghost use Rattle.std.specs.Prelude.{◌≡◌, slice_index};

use arrayvec::ArrayVec;
use std::marker::Model;
use surw_base::{STEPS, THREADS, ThreadNo};

/// A count for each thread, at most `THREADS` of them with a sum of at most `STEPS`. A contract sees the
/// list of the counts.
#[derive(Debug, Drop)]
pub struct Weights {
    counts: ArrayVec<u32, THREADS>,
    sum: u64,
}

impl Model for Weights {
    ghost use Rattle.std.specs.Prelude.{ℕ, List};

    ghost Value = { List ℕ };

    ghost use Rattle.draw_split.specs.Weights.{AreWeights};

    ghost view = { λ weights. weights.counts.items };

    ghost invariant = { AreWeights };
}

impl Weights {
    ghost use Rattle.std.specs.Prelude.{◌≡◌, ◌<◌, ◌≤◌, length, sum, slice_index};
    ghost use Rattle.draw_split.specs.Bag.{less_one};

    /// These counts.
    pub fn new(counts: &[u32]) -> Weights
        requires threads { length counts.now ≤ THREADS }
        requires steps { sum counts.now ≤ STEPS }
        ensures { result ≡ counts.now }
    {
        let mut kept = ArrayVec::new();
        let mut sum = 0u64;
        for count in counts {
            kept.push(*count);
            sum += u64::from(*count);
        }
        Weights { counts: kept, sum }
    }

    /// The same counts. It takes no memory.
    pub fn copy(&self) -> Weights
        ensures { result ≡ self.now }
    {
        Weights::new(self.as_slice())
    }

    /// How many threads there are, at most `THREADS`.
    pub fn threads(&self) -> usize
        ensures number { result ≡ length self.now }
        ensures most { result ≤ THREADS }
    {
        self.counts.len()
    }

    /// The count of a thread, and 0 past the list.
    pub fn left(&self, thread: ThreadNo) -> u32
        ensures { result ≡ slice_index self.now thread }
    {
        count_of(self.counts.as_slice(), thread)
    }

    /// The sum of the counts, at most `STEPS`.
    pub fn sum(&self) -> u64
        ensures same { result ≡ sum self.now }
        ensures most { result ≤ STEPS }
    {
        self.sum
    }

    /// The counts.
    pub fn as_slice(&self) -> &[u32]
        ensures same { result.now ≡ self.now }
        ensures threads { length self.now ≤ THREADS }
        ensures steps { sum self.now ≤ STEPS }
    {
        self.counts.as_slice()
    }

    /// Lowers the count of a thread by one, and no other.
    pub fn take(&mut self, thread: ThreadNo)
        requires { 0 < slice_index self.old thread }
        ensures { self.new ≡ less_one self.old thread }
    {
        self.counts[usize::from(thread.get())] -= 1;
        self.sum -= 1;
    }
}

// The count of a thread, and 0 past the list.
pub(crate) fn count_of(counts: &[u32], thread: ThreadNo) -> u32
    ensures { result ≡ slice_index counts.now thread }
{
    counts.get(usize::from(thread.get())).copied().unwrap_or(0)
}
