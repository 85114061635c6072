ghost use Rattle.std.specs.Prelude.{◌≡◌, ◌≢◌, ℕ, ◌+◌, ◌<◌, ◌≤◌, false, None, vec_len};
ghost use Rattle.turn_table.specs.Count.{times, below};
ghost use Rattle.turn_table.specs.Rule.{numbers_of, rounds_of};
ghost use Rattle.turn_table.specs.Seat.{SeatsFrom, AreNumbered, given_to};

use crate::rule::Takes;
use crate::{Rounded, TurnSeat, TurnTable, View};
use atomic_table::Seat;

/// What is left of a table that was closed.
#[derive(Drop)]
pub struct Closed<T: Rounded> {
    /// How many rounds there were.
    pub rounds: u32,
    /// The state after the last of them.
    pub state: T,
}

impl<T: Rounded> TurnTable<T> {
    /// The state, for all seats in the order of their threads, none of which holds a turn. Each round was given to one
    /// of them, once.
    pub fn close(self, mut seats: Vec<TurnSeat<T>>) -> Closed<T>
        requires seats { (0 < vec_len seats) × SeatsFrom self.id 0 seats.items }
        ensures state { T.round_of result.state ≡ result.rounds }
        ensures rounds { (round : ℕ) → given_to round seats.items ≡ below round result.rounds }
    {
        let Some(last) = seats.pop() else {
            unreachable!()
        };
        let TurnSeat { seat, number: _ } = last;
        let main = self.gather(seat, seats);
        let TurnTable { table, .. } = self;
        let mut closed = table.close_with(main);
        let state = closed.take(0);
        closed.free();
        let Some(state) = state else { unreachable!() };
        let rounds = state.round();
        Closed { rounds, state }
    }

    // One seat takes in the others.
    fn gather(
        &self,
        main: Seat<Option<T>, View>,
        mut seats: Vec<TurnSeat<T>>,
    ) -> Seat<Option<T>, View>
        requires table { main.table_id ≡ self.now.id }
        requires main { (main.me.0.number ≢ None) × (main.me.0.turn ≡ false) }
        requires seats { AreNumbered self.now.id 0 seats.items }
        ensures table { result.table_id ≡ main.table_id }
        ensures main { (result.me.0.turn ≡ false) × (result.me.0.right ≡ main.me.0.right) }
        ensures numbers { (k : ℕ) →
            times k (numbers_of main.me.0) + below k (vec_len seats) ≤ times k (numbers_of result.me.0) }
        ensures rounds { (k : ℕ) →
            times k (rounds_of result.me.0) ≡ times k (rounds_of main.me.0) + given_to k seats.items }
    {
        let mut main = main;
        while let Some(next) = seats.pop() {
            let TurnSeat { seat, number: _ } = next;
            self.table.shared.join_seat::<Takes>(&mut main, seat);
        }
        main
    }
}
