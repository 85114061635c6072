ghost use Rattle.std.specs.Prelude.{◌≡◌, ◌↔◌, ◌<◌, ◌≤◌, IfOk, IsTrue, Some, length, slice_get};
ghost use Rattle.surw_base.specs.declared.limits.TheConstants.{STEPS};

use event_class::Event;
use std::alloc::Global;
use std::marker::Model;
use surw_base::{OutOfMemory, ThreadNo};

/// An entry that a replay asks for.
#[derive(Clone, Copy, Debug, PartialEq, Eq)]
pub struct Asked {
    /// The thread that takes the step.
    pub thread: ThreadNo,
    /// The event that it makes.
    pub event: Event,
}

/// The entries that a replay asks for, in order. A contract sees their list.
#[derive(Debug, Drop)]
pub struct AskedList {
    items: Vec<Asked>,
}

impl Model for AskedList {
    ghost use Rattle.std.specs.Prelude.{List, ◌≤◌, length};
    ghost use Rattle.surw_base.specs.declared.limits.TheConstants.{STEPS};
    ghost use Rattle.walk_rules.specs.declared.asked.Asked.{Asked};

    ghost Value = { List Asked };

    ghost view = { λ list. list.items.items };

    ghost invariant = { λ list. length list.items.items ≤ STEPS };
}

impl AskedList {
    /// These entries, at most `STEPS`.
    pub fn new(items: Vec<Asked>) -> AskedList
        requires { length items.items ≤ STEPS }
        ensures { result ≡ items.items }
    {
        AskedList { items }
    }

    /// How many there are, at most `STEPS`.
    pub fn len(&self) -> u32
        ensures number { result ≡ length self.now }
        ensures most { result ≤ STEPS }
    {
        self.items.len() as u32
    }

    /// Its entries.
    pub fn as_slice(&self) -> &[Asked]
        ensures { result.now ≡ self.now }
    {
        self.items.as_slice()
    }

    /// The entry at a place.
    pub fn at(&self, k: u32) -> Asked
        requires { k < length self.now }
        ensures { slice_get self.now k ≡ Some result }
    {
        self.items[k as usize]
    }

    /// An equal list. An error comes only where memory is refused.
    pub fn copy(&self, alloc: Global) -> Result<AskedList, OutOfMemory>
        ensures { IfOk result (λ copy. copy ≡ self.now) }
    {
        let items = Vec::from_slice(alloc, self.items.as_slice())?;
        Ok(AskedList { items })
    }

    /// Whether the two have the same entries in the same order.
    #[tactic(auto, using(crate::proofs::AskedEqual::same_asked_lists))]
    pub fn same(&self, other: &AskedList) -> bool
        ensures { IsTrue result ↔ (self.now ≡ other.now) }
    {
        self.items.as_slice() == other.items.as_slice()
    }
}
