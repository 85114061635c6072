ghost use Rattle.std.specs.Prelude.{◌≡◌, ◌+◌, ◌^◌, ◌<◌, ◌≤◌, ◌==◌, ◌∷◌, length, slice_index, if◌then◌else◌};
ghost use Rattle.std.specs.Int.{bit_at};
ghost use Rattle.surw_base.specs.declared.limits.TheConstants.{THREADS};
ghost use Rattle.walk_rules.specs.ThreadSet.{members};

use surw_base::ThreadNo;

// A set of threads, with a bit for each.
#[derive(Clone, Copy, Debug)]
pub(crate) struct ThreadSet {
    bits: u32,
}

impl ThreadSet {
    // The set without threads.
    pub(crate) fn new() -> ThreadSet
        ensures { result.bits ≡ 0 }
    {
        ThreadSet { bits: 0 }
    }

    // Puts a thread in where it is in now, and takes it out where it was in before.
    pub(crate) fn change(&mut self, thread: ThreadNo, before: bool, now: bool)
        requires few { self.old.bits < 2 ^ THREADS }
        requires before { (if before then 2 ^ thread else 0) ≤ self.old.bits }
        ensures { self.new.bits + (if before then 2 ^ thread else 0) ≡ self.old.bits + (if now then 2 ^ thread else 0) }
    {
        let bit = 1 << thread.get();
        if before {
            self.bits -= bit;
        }
        if now {
            self.bits += bit;
        }
    }

    // Whether a thread is in it.
    pub(crate) fn has(&self, thread: usize) -> bool
        requires { thread < THREADS }
        ensures { result ≡ (bit_at self.now.bits thread == 1) }
    {
        self.bits >> thread & 1 == 1
    }

    // How many threads are in it.
    #[tactic(auto, using(crate::proofs::ThreadSets::counted))]
    pub(crate) fn len(&self) -> usize
        requires { self.now.bits < 2 ^ THREADS }
        ensures { result ≡ length (members THREADS 0 self.now.bits) }
    {
        self.bits.count_ones() as usize
    }

    // Without the threads of another set, which are all in it.
    pub(crate) fn without(&self, other: ThreadSet) -> ThreadSet
        requires { other.bits ≤ self.now.bits }
        ensures { result.bits + other.bits ≡ self.now.bits }
    {
        ThreadSet {
            bits: self.bits - other.bits,
        }
    }

    // Takes the lowest thread out.
    pub(crate) fn take_lowest(&mut self) -> ThreadNo
        requires { 0 < length (members THREADS 0 self.old.bits) }
        ensures { members THREADS 0 self.old.bits ≡ result ∷ members THREADS 0 self.new.bits }
    {
        let lowest = self.bits.trailing_zeros();
        self.bits &= self.bits - 1;
        ThreadNo::new(lowest as u8).unwrap()
    }

    // The thread at a place among those that are in it, rising.
    pub(crate) fn at(&self, place: u64) -> ThreadNo
        requires { place < length (members THREADS 0 self.now.bits) }
        ensures { result ≡ slice_index (members THREADS 0 self.now.bits) place }
    {
        let mut rest = self.bits;
        for _passed in 0..place {
            rest &= rest - 1;
        }
        ThreadNo::new(rest.trailing_zeros() as u8).unwrap()
    }
}
