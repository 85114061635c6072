ghost use Rattle.std.specs.Prelude.{◌≡◌, ◌+◌, ◌<◌};
ghost use Rattle.turn_table.specs.Rule.{thread_of, after_pass};
ghost use Rattle.turn_table.specs.Turn.{HoldsTurn};

use crate::rule::Passes;
use crate::{Rounded, Turn, TurnSeat, TurnTable};
use surw_base::ThreadNo;

impl<T: Rounded> TurnTable<T> {
    /// Passes a turn on, to the thread that the state grants the next round, and wakes it; or ends the rounds, and wakes
    /// all. The state has had one round more than at the turn's begin.
    pub fn pass(&self, seat: &mut TurnSeat<T>, turn: Turn<T>, to: Option<ThreadNo>)
        requires table { seat.old.table ≡ self.now.id }
        requires given { HoldsTurn seat.old.view turn }
        requires round { T.round_of turn.state ≡ turn.round + 1 }
        requires granted { T.granted_of turn.state ≡ to }
        ensures table { seat.new.table ≡ seat.old.table }
        ensures rests { seat.new.view ≡ after_pass seat.old.view }
    {
        let Turn { state, round } = turn;
        let holder = holder_of(to);
        let old = 32 * u64::from(round) + u64::from(seat.number.get());
        let new = 32 * (u64::from(round) + 1) + holder;
        // The state has to be home before the word moves: who is named takes it at once.
        let None = self.table.shared.exchange(&mut seat.seat, 0, Some(state)) else {
            unreachable!()
        };
        self.table
            .shared
            .compare_exchange::<Passes>(&mut seat.seat, 0, old, new);
        self.wake(holder);
    }

    // Ends the rest of the seat that the turn word names, or of all where it names none.
    fn wake(&self, holder: u64) {
        match self.places.get(holder as usize) {
            Some(place) => place.unpark(),
            None => self.wake_all(),
        }
    }
}

/// The holder by which the turn word names this thread, or none.
pub(crate) fn holder_of(to: Option<ThreadNo>) -> u64
    ensures thread { to ≡ thread_of result }
    ensures small { result < 32 }
{
    match to {
        Some(thread) => u64::from(thread.get()),
        None => 31,
    }
}
