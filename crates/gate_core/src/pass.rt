ghost use Rattle.std.specs.Prelude.{◌≡◌, false, Some};

use crate::held::Held;
use seed_draws::Draws;
use std::marker::Model;
use surw_base::ThreadNo;
use turn_table::TurnSeat;

/// A thread's right to wait at one gate: its seat, which holds no turn. There is one for each thread of the gate's core,
/// and it can't be copied.
#[derive(Drop)]
pub struct Pass<S: Draws, O: Draws> {
    seat: TurnSeat<Held<S, O>>,
}

impl<S: Draws, O: Draws> Model for Pass<S, O> {
    ghost use Rattle.std.specs.Prelude.{◌≡◌, false};
    ghost use Rattle.turn_table.specs.Seat.{SeatState};

    ghost Value = { SeatState };

    ghost view = { λ p. p.seat };

    ghost invariant = { λ p. p.seat.view.turn ≡ false };
}

impl<S: Draws, O: Draws> Pass<S, O> {
    // The pass of this seat.
    pub(crate) fn new(seat: TurnSeat<Held<S, O>>) -> Pass<S, O>
        requires { seat.view.turn ≡ false }
        ensures { result ≡ seat }
    {
        Pass { seat }
    }

    // Its seat.
    pub(crate) fn into_seat(self) -> TurnSeat<Held<S, O>>
        ensures seat { result ≡ self }
        ensures rests { result.view.turn ≡ false }
    {
        self.seat
    }

    /// Its thread. What is true of every pass is told here: its seat holds no turn.
    pub fn thread(&self) -> ThreadNo
        ensures thread { self.now.view.number ≡ Some result }
        ensures rests { self.now.view.turn ≡ false }
    {
        self.seat.thread()
    }
}
