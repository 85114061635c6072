ghost use Rattle.std.specs.Prelude.{◌≡◌, false, Some, slice_get};
ghost use Rattle.walk_rules.specs.declared.picked.Picked.TheVariants.{Grant};
ghost use Rattle.walk_rules.specs.Follow.{asked_thread};
ghost use Rattle.walk_rules.specs.Walk.{AsksAble, GrantsAble};

use crate::{Announced, AskedList, Picked};

// Picks the thread of the entry that is asked for at a step.
pub(crate) fn pick(list: &AskedList, step: u32, view: &Announced) -> Picked
    requires { AsksAble (Some list.now) step view.now }
    ensures picked { result ≡ Grant (asked_thread (slice_get list.now step)) false }
    ensures able { GrantsAble view.now result }
{
    let _ = view;
    Picked::Grant {
        thread: list.at(step).thread,
        forced: false,
    }
}
