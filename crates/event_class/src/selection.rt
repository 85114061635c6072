ghost use Rattle.std.specs.Prelude.{◌≡◌, ◌↔◌, IsTrue, IfOk};
ghost use Rattle.event_class.specs.Selection.{has};

use crate::{Event, Pickable};
use std::alloc::Global;
use std::marker::Model;
use surw_base::OutOfMemory;

/// Which events are selected: those that an item of its list takes.
#[derive(Debug, Drop)]
pub struct Selection {
    items: Vec<Pickable>,
}

impl Model for Selection {
    ghost use Rattle.std.specs.Prelude.{List};
    ghost use Rattle.event_class.specs.declared.pickable.Pickable.{Pickable};

    ghost Value = { List Pickable };

    ghost view = { λ selection. selection.items.items };
}

impl Selection {
    /// The selection of these items.
    pub fn new(items: Vec<Pickable>) -> Selection
        ensures { result ≡ items.items }
    {
        Selection { items }
    }

    /// Whether an item takes the event.
    pub fn has(&self, event: &Event) -> bool
        ensures { result ≡ has self.now event.now }
    {
        self.items.iter().any(|item| item.picks(event))
    }

    /// A selection with the same items. An error comes only where memory is refused.
    pub fn copy(&self, alloc: Global) -> Result<Selection, OutOfMemory>
        ensures { IfOk result (λ copy. copy ≡ self.now) }
    {
        let items = Vec::from_slice(alloc, self.items.as_slice())?;
        Ok(Selection { items })
    }

    /// Whether the two have the same items in the same order.
    #[tactic(auto, using(crate::proofs::Same::same_items))]
    pub fn same(&self, other: &Selection) -> bool
        ensures { IsTrue result ↔ (self.now ≡ other.now) }
    {
        self.items.as_slice() == other.items.as_slice()
    }

    /// Its items.
    pub fn as_slice(&self) -> &[Pickable]
        ensures { result.now ≡ self.now }
    {
        self.items.as_slice()
    }
}

#[cfg(test)]
mod tests {
    use super::*;
    use crate::Class;
    use std::test::Fail;

    #[test]
    fn an_item_takes_a_class_or_an_object(rt: HostRuntime) -> Result<(), Fail> {
        let load = Event::Load { c: 2 };
        let acquire = Event::Acquire { l: 2 };
        let fill = Event::Fill { f: 2, p: 2 };
        let rows = [
            (Pickable::Every, [true, true, true]),
            (Pickable::Of(Class::Disk), [false, false, true]),
            (Pickable::Of(Class::Cache), [false, false, false]),
            (Pickable::LockNo(2), [false, true, false]),
            (Pickable::CellNo(2), [true, false, false]),
            (Pickable::CellNo(3), [false, false, false]),
        ];
        for (i, (item, takes)) in rows.iter().enumerate() {
            let selection = Selection::new(Vec::from_slice(rt.alloc(), &[*item])?);
            let found = [load, acquire, fill].map(|event| selection.has(&event));
            assert_eq!(rt; found, *takes, "at {i}");
        }
        Ok(())
    }

    #[test]
    fn a_copy_is_the_same(rt: HostRuntime) -> Result<(), Fail> {
        let items = [Pickable::LockNo(1), Pickable::Of(Class::Log)];
        let selection = Selection::new(Vec::from_slice(rt.alloc(), &items)?);
        let copy = selection.copy(rt.alloc())?;
        assert!(rt; copy.same(&selection));
        assert_eq!(rt; copy.as_slice(), items.as_slice());
        let other = Selection::new(Vec::from_slice(rt.alloc(), &items[..1])?);
        assert!(rt; !copy.same(&other));
        Ok(())
    }
}
