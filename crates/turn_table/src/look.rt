ghost use Rattle.std.specs.Prelude.{◌≡◌, false, IfSome, IfNone};
ghost use Rattle.turn_table.specs.Turn.{IsTurnOf, IsOthers, IsOver, IsNotMine};

use crate::rule::Looks;
use crate::{Rounded, Turn, TurnSeat, TurnTable};

/// What a look at the turn word finds.
pub enum Look<T: Rounded> {
    /// The turn is the seat's.
    Mine(Turn<T>),
    /// The turn is another seat's.
    Other,
    /// No round follows.
    Over,
}

impl<T: Rounded> TurnTable<T> {
    ghost use Rattle.turn_table.specs.declared.look.Look.TheVariants.{Mine, Other, Over};

    /// Looks at the turn word once, and takes the state where the word names this seat.
    pub fn look(&self, seat: &mut TurnSeat<T>) -> Look<T>
        requires table { seat.old.table ≡ self.now.id }
        requires rests { seat.old.view.turn ≡ false }
        ensures table { seat.new.table ≡ seat.old.table }
        ensures found { elim result [
          | Mine turn ↦ IsTurnOf T.round_of T.granted_of seat.old.view seat.new.view turn
          | Other ↦ IsOthers seat.old.view seat.new.view
          | Over ↦ IsOver seat.old.view seat.new.view
        ] }
    {
        let found = self.table.shared.load::<Looks>(&mut seat.seat, 0);
        let holder = found % 32;
        if holder == 31 {
            return Look::Over;
        }
        if holder != u64::from(seat.number.get()) {
            return Look::Other;
        }
        let Some(state) = self.table.shared.exchange(&mut seat.seat, 0, None) else {
            unreachable!()
        };
        let round = state.round();
        Look::Mine(Turn { state, round })
    }

    /// The seat's turn, where the turn word names it now.
    pub fn try_turn(&self, seat: &mut TurnSeat<T>) -> Option<Turn<T>>
        requires table { seat.old.table ≡ self.now.id }
        requires rests { seat.old.view.turn ≡ false }
        ensures table { seat.new.table ≡ seat.old.table }
        ensures mine { IfSome result (λ turn. IsTurnOf T.round_of T.granted_of seat.old.view seat.new.view turn) }
        ensures none { IfNone result (IsNotMine seat.old.view seat.new.view) }
    {
        match self.look(seat) {
            Look::Mine(turn) => Some(turn),
            Look::Other | Look::Over => None,
        }
    }
}
