use crate::{Rounded, View};
use atomic_table::{Join, Play, Split, TableRule};

/// The rule of a turn table: what holds of its words, its slot and its seats after each step.
pub struct TurnRule;

impl<T: Rounded> TableRule<Option<T>, View, ()> for TurnRule {
    ghost use Rattle.turn_table.specs.Rule.{Ruled, first_view};

    ghost holds = { λ _. Ruled T.round_of T.granted_of };

    ghost first = { λ _. first_view };
}

/// The load of the turn word. Where the word names the seat, the slot comes to it.
pub(crate) struct Looks;

impl<T: Rounded> Play<Option<T>, View> for Looks {
    ghost use Rattle.turn_table.specs.Rule.{IsLook};

    ghost then = { IsLook T.round_of T.granted_of };
}

/// The exchange of the turn word by which a turn is passed on.
pub(crate) struct Passes;

impl<T> Play<Option<T>, View> for Passes {
    ghost use Rattle.turn_table.specs.Rule.{IsPass};

    ghost then = { IsPass };
}

/// The step by which a seat gets its number.
pub(crate) struct Numbers;

impl<T> Play<Option<T>, View> for Numbers {
    ghost use Rattle.turn_table.specs.Rule.{IsNumbering};

    ghost then = { IsNumbering };
}

/// How a seat without a number is split off.
pub(crate) struct Right;

impl Split<View> for Right {
    ghost use Rattle.turn_table.specs.Rule.{without_right, fresh_view};

    ghost left = { without_right };

    ghost right = { fresh_view };
}

/// How one seat takes in another.
pub(crate) struct Takes;

impl Join<View> for Takes {
    ghost use Rattle.turn_table.specs.Rule.{joint_view, spent_view};

    ghost both = { joint_view };

    ghost spent = { spent_view };
}
