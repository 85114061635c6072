ghost use Rattle.std.specs.Prelude.{◌≡◌, Some, true, false, length};
ghost use Rattle.pure_run.specs.Core.{IsStepTo, setup_by};
ghost use Rattle.turn_table.specs.Turn.{HoldsTurn};
ghost use Rattle.gate_core.specs.Gate.{IsBack, last_round};
ghost use Rattle.gate_core.specs.Held.{next_thread};

use crate::Pass;
use crate::held::Held;
use event_class::Event;
use seed_draws::Draws;
use std::marker::Model;
use surw_base::ThreadNo;
use turn_table::{Rounded, Turn, TurnSeat, TurnTable};

/// The core, lent to the thread that is granted the next step. That thread makes the step, says its next word and
/// hands the core on. It can't be let go otherwise.
pub struct Lent<'g, S: Draws, O: Draws> {
    table: &'g TurnTable<Held<S, O>>,
    turn: Turn<Held<S, O>>,
    seat: TurnSeat<Held<S, O>>,
    thread: ThreadNo,
    performed: bool,
}

impl<'g, S: Draws, O: Draws> Model for Lent<'g, S, O> {
    ghost use Rattle.gate_core.specs.Gate.{LentState, lent_state, IsLent};

    ghost Value = { LentState S O };

    ghost view = { λ l. lent_state l.turn l.seat l.thread l.performed };

    ghost invariant = { λ l. IsLent S.Draws O.Draws l.table.now.id (lent_state l.turn l.seat l.thread l.performed) };
}

impl<'g, S: Draws, O: Draws> Lent<'g, S, O> {
    // The core in a turn that the seat was given at this table.
    pub(crate) fn new(
        table: &'g TurnTable<Held<S, O>>,
        turn: Turn<Held<S, O>>,
        seat: TurnSeat<Held<S, O>>,
    ) -> Lent<'g, S, O>
        requires table { seat.table ≡ table.now.id }
        requires holds { HoldsTurn seat.view turn }
        requires last { last_round seat.view.rounds ≡ Some turn.round }
        requires round { length turn.state.journal ≡ turn.round }
        requires granted { next_thread S.Draws O.Draws turn.state ≡ seat.view.number }
        ensures lent { result ≡ record { core = turn.state; seat = seat; thread = result.thread; step = turn.round; performed = false } }
        ensures thread { seat.view.number ≡ Some result.thread }
    {
        let thread = seat.thread();
        Lent {
            table,
            turn,
            seat,
            thread,
            performed: false,
        }
    }

    /// The number of the step that it was lent for, from 0: the last round of its seat.
    pub fn step(&self) -> u32
        ensures number { result ≡ self.now.step }
        ensures last { last_round self.now.seat.view.rounds ≡ Some result }
    {
        self.turn.round()
    }

    /// Makes the step, and answers the reply to the event that the thread announced.
    pub fn perform(&mut self) -> u64
        requires { self.old.performed ≡ false }
        ensures step { IsStepTo (setup_by S.Draws O.Draws self.old.core) self.old.core self.old.thread result self.new.core }
        ensures performed { self.new ≡ record self.old { core = self.new.core; performed = true } }
    {
        self.performed = true;
        self.turn.state().perform(self.thread)
    }

    /// Says the thread's next word, the event that it announces or that it has ended, and hands the core on to the
    /// thread that is granted the next step, which is woken, or wakes all where there is a verdict.
    pub fn hand_on(self, next: Option<Event>) -> Pass<S, O>
        requires { self.performed ≡ true }
        ensures back { IsBack self.entry.seat result }
        ensures last { last_round result.view.rounds ≡ Some self.entry.step }
    {
        let Lent {
            table,
            mut turn,
            mut seat,
            thread,
            performed: _,
        } = self;
        turn.state().say(thread, next);
        let to = turn.state().granted();
        table.pass(&mut seat, turn, to);
        Pass::new(seat)
    }
}
