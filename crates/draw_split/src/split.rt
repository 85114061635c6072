ghost use Rattle.std.specs.Prelude.{ℕ, ◌≡◌, ◌+◌, ◌≤◌, ◌<◌, length, map, IfOk, OnOk, slice_index_or, slice_set, [], ◌∷◌, ◌++◌, replicate};
ghost use Rattle.draw_split.specs.Split.{padded};

use std::alloc::Global;
use std::marker::Model;
use surw_base::{OutOfMemory, THREADS, ThreadNo};

/// An order of threads, and a list of offsets for each thread, in the order in which the thread's places
/// come. A contract sees both as lists; the list of offsets has `THREADS` members.
#[derive(Debug, Drop)]
pub struct Split {
    order: Vec<ThreadNo>,
    offsets: Vec<Vec<u32>>,
}

impl Model for Split {
    ghost use Rattle.draw_split.specs.Split.{Parts};

    ghost Value = { Parts };

    ghost use Rattle.std.specs.Prelude.{◌≡◌, length, map};
    ghost use Rattle.surw_base.specs.declared.limits.TheConstants.{THREADS};

    ghost view = { λ split. record { order = split.order.items; offsets = map (λ list. list.items) split.offsets.items } };

    ghost invariant = { λ split. length split.offsets.items ≡ THREADS };
}

impl Split {
    /// This order with these offsets. Missing lists are empty.
    pub fn new(
        alloc: Global,
        order: Vec<ThreadNo>,
        offsets: Vec<Vec<u32>>,
    ) -> Result<Split, OutOfMemory>
        requires { length offsets.items ≤ THREADS }
        ensures order { IfOk result (λ split. split.order ≡ order.items) }
        ensures offsets { IfOk result (λ split. split.offsets ≡ padded (map (λ list. list.items) offsets.items)) }
    {
        let mut offsets = offsets;
        for _missing in offsets.len()..THREADS {
            offsets.push(Vec::new(alloc))?;
        }
        Ok(Split { order, offsets })
    }

    // Nothing yet, with the memory for these counts.
    pub(crate) fn with_room(alloc: Global, counts: &[u32], sum: u64) -> Result<Split, OutOfMemory>
        requires { length counts.now ≤ THREADS }
        ensures order { IfOk result (λ split. split.order ≡ []) }
        ensures offsets { IfOk result (λ split. split.offsets ≡ replicate THREADS []) }
    {
        let order = Vec::with_capacity(alloc, sum as usize)?;
        let mut offsets = Vec::with_capacity(alloc, THREADS)?;
        for count in counts {
            offsets.push(Vec::with_capacity(alloc, *count as usize)?)?;
        }
        Split::new(alloc, order, offsets)
    }

    // One place more in the order, with its offset.
    pub(crate) fn push(&mut self, thread: ThreadNo, offset: u32) -> Result<(), OutOfMemory>
        ensures order { OnOk result (self.new.order ≡ self.old.order ++ thread ∷ []) }
        ensures offsets { OnOk result
            (self.new.offsets ≡ slice_set self.old.offsets thread (slice_index_or self.old.offsets thread [] ++ offset ∷ [])) }
        ensures lists { length self.old.offsets ≡ THREADS }
    {
        self.order.push(thread)?;
        self.offsets[usize::from(thread.get())].push(offset)?;
        Ok(())
    }

    /// The order.
    pub fn order(&self) -> &[ThreadNo]
        ensures { result.now ≡ self.now.order }
    {
        self.order.as_slice()
    }

    /// The offsets of a thread.
    pub fn offsets(&self, thread: ThreadNo) -> &[u32]
        ensures list { result.now ≡ slice_index_or self.now.offsets thread [] }
        ensures lists { length self.now.offsets ≡ THREADS }
    {
        self.offsets[usize::from(thread.get())].as_slice()
    }
}
