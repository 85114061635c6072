ghost use Rattle.std.specs.Prelude.{◌≡◌, Some, IfSome};
ghost use Rattle.event_class.specs.Pickable.{IsPickableText, pickable_of};
ghost use Rattle.event_class.specs.Selection.{picks};

use crate::{Class, Event};
use surw_base::read_whole_number;

/// What an item of a selection takes.
#[derive(Clone, Copy, Debug, PartialEq, Eq)]
pub enum Pickable {
    /// Every event.
    Every,
    /// The events of a class.
    Of(Class),
    /// The events on the lock of this number.
    LockNo(u64),
    /// The events on the cell of this number.
    CellNo(u64),
}

impl Pickable {
    /// Whether it takes the event.
    pub fn picks(&self, event: &Event) -> bool
        ensures { result ≡ picks self.now event.now }
    {
        match *self {
            Pickable::Every => true,
            Pickable::Of(class) => event.class() == class,
            Pickable::LockNo(l) => event.class() == Class::Lock && event.lock_or_cell() == Some(l),
            Pickable::CellNo(c) => event.class() == Class::Cell && event.lock_or_cell() == Some(c),
        }
    }
}

/// What a whole text names, as `all`, `cache` or `lock 3`. None exactly where it names nothing.
#[tactic(auto, using(crate::proofs::Pickables::none_read))]
pub fn read_pickable(text: &[u8]) -> Option<Pickable>
    ensures same { result ≡ pickable_of text.now }
    ensures found { IfSome result (IsPickableText text.now) }
    ensures only { (item : Pickable) → IsPickableText text.now item → result ≡ Some item }
{
    match text {
        b"all" => Some(Pickable::Every),
        b"lock" => Some(Pickable::Of(Class::Lock)),
        b"cell" => Some(Pickable::Of(Class::Cell)),
        b"cache" => Some(Pickable::Of(Class::Cache)),
        b"disk" => Some(Pickable::Of(Class::Disk)),
        b"log" => Some(Pickable::Of(Class::Log)),
        b"check" => Some(Pickable::Of(Class::Check)),
        [b'l', b'o', b'c', b'k', b' ', digits @ ..] => {
            let l = read_whole_number(digits)?;
            Some(Pickable::LockNo(l))
        }
        [b'c', b'e', b'l', b'l', b' ', digits @ ..] => {
            let c = read_whole_number(digits)?;
            Some(Pickable::CellNo(c))
        }
        _ => None,
    }
}

#[cfg(test)]
mod tests {
    use super::*;

    #[test]
    fn words_of_a_selection(rt: HostRuntime) {
        let rows: [(&[u8], Pickable); 10] = [
            (b"all", Pickable::Every),
            (b"lock", Pickable::Of(Class::Lock)),
            (b"cell", Pickable::Of(Class::Cell)),
            (b"cache", Pickable::Of(Class::Cache)),
            (b"disk", Pickable::Of(Class::Disk)),
            (b"log", Pickable::Of(Class::Log)),
            (b"check", Pickable::Of(Class::Check)),
            (b"lock 0", Pickable::LockNo(0)),
            (b"cell 10", Pickable::CellNo(10)),
            (b"cell 18446744073709551615", Pickable::CellNo(u64::MAX)),
        ];
        for (i, (text, item)) in rows.iter().enumerate() {
            assert_eq!(rt; read_pickable(text), Some(*item), "at {i}");
        }
    }

    #[test]
    fn words_that_name_nothing(rt: HostRuntime) {
        let rows: [&[u8]; 9] = [
            b"",
            b"All",
            b"all ",
            b"lock ",
            b"lock 01",
            b"lock 1 ",
            b"cell  1",
            b"cache 1",
            b"cell 18446744073709551616",
        ];
        for (i, text) in rows.iter().enumerate() {
            assert_eq!(rt; read_pickable(text), None, "at {i}");
        }
    }
}
