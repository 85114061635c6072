ghost use Rattle.std.specs.Prelude.{◌≡◌, Some};

use crate::{Rounded, View};
use atomic_table::Seat;
use std::marker::Model;
use surw_base::ThreadNo;

/// One thread's place at a turn table. It can't be copied, so a thread has one seat and a seat one thread.
#[derive(Drop)]
pub struct TurnSeat<T: Rounded> {
    pub(crate) seat: Seat<Option<T>, View>,
    pub(crate) number: ThreadNo,
}

impl<T: Rounded> Model for TurnSeat<T> {
    ghost use Rattle.std.specs.Prelude.{◌≡◌, ◌<◌, Some};
    ghost use Rattle.turn_table.specs.Seat.{SeatState, hand_of};

    ghost Value = { SeatState };

    ghost view = { λ s. record { table = s.seat.table_id; view = s.seat.me.0 } };

    ghost invariant = { λ s. (s.seat.me.0.number ≡ Some s.number)
        × (s.number < 31)
        × (s.seat.me.1 ≡ hand_of s.seat.me.0.turn) };
}

impl<T: Rounded> TurnSeat<T> {
    /// The thread that it stands for.
    pub fn thread(&self) -> ThreadNo
        ensures { self.now.view.number ≡ Some result }
    {
        self.number
    }
}
