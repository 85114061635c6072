ghost use Rattle.std.specs.Prelude.{◌≡◌, false};
ghost use Rattle.turn_table.specs.Turn.{IsTurnOf, IsOver};

use crate::{Look, Rounded, Turn, TurnSeat, TurnTable};
use std::hint::spin_loop;
use std::sync::Wait;

/// How a wait for a turn ends.
pub enum TurnAnswer<T: Rounded> {
    /// The turn is the seat's.
    Mine(Turn<T>),
    /// No round follows.
    Over,
}

impl<T: Rounded> TurnTable<T> {
    ghost use Rattle.turn_table.specs.declared.wait.TurnAnswer.TheVariants.{Mine, Over};

    /// Waits until the turn word names this seat, or no round follows.
    pub fn wait_turn<R: Wait>(&self, rt: &R, seat: &mut TurnSeat<T>) -> TurnAnswer<T>
        requires table { seat.old.table ≡ self.now.id }
        requires rests { seat.old.view.turn ≡ false }
        ensures table { seat.new.table ≡ seat.old.table }
        ensures found { elim result [
          | Mine turn ↦ IsTurnOf T.round_of T.granted_of seat.old.view seat.new.view turn
          | Over ↦ IsOver seat.old.view seat.new.view
        ] }
    {
        for _ in rt.forever() {
            match self.look(seat) {
                Look::Mine(turn) => {
                    return TurnAnswer::Mine(turn);
                }
                Look::Over => {
                    return TurnAnswer::Over;
                }
                Look::Other => self.rest(rt, seat),
            }
        }
        unreachable!()
    }

    /// Sleeps until the turn word may name this seat, no round follows or `wake_all` is called. It may also return for no
    /// reason. The seat stays as it is.
    pub fn rest<R: Wait>(&self, rt: &R, seat: &TurnSeat<T>) {
        let number = seat.thread().get();
        if !self.comes_soon(number) {
            if let Some(place) = self.places.get(usize::from(number)) {
                place.park(rt);
            }
        }
    }

    // Whether the turn word names this thread or none, within a short while.
    fn comes_soon(&self, number: u8) -> bool {
        for _peek in 0..self.peeks {
            let holder = self.table.shared.peek(0) % 32;
            if holder == u64::from(number) || holder == 31 {
                return true;
            }
            spin_loop();
        }
        false
    }

    /// Ends the rest of every seat, or its next one where it doesn't rest now.
    pub fn wake_all(&self) {
        for place in self.places.iter() {
            place.unpark();
        }
    }
}
