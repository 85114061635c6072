ghost use Rattle.std.specs.Prelude.{◌≡◌};
ghost use Rattle.gate_core.specs.Gate.{IsBack, IsLentTo, IsPassAt, IsToldOver};

use crate::held::Held;
use crate::{Lent, Pass, Waited};
use seed_draws::Draws;
use std::marker::Model;
use std::sync::{OnceLock, Wait};
use turn_table::{Look, TurnTable};

/// What threads share of a gate: the table by which the core goes from one to another, and the note that the gate is
/// closed with. A contract sees what tells the table from others. There is no seat in it, so threads may share it where
/// the core may be sent.
#[derive(Drop)]
pub struct Turnstile<S: Draws, O: Draws, C: Drop> {
    table: TurnTable<Held<S, O>>,
    note: OnceLock<C>,
}

impl<S: Draws, O: Draws, C: Drop> Model for Turnstile<S, O, C> {
    ghost use Rattle.atomic_table.specs.Seated.{TableId};

    ghost Value = { TableId };

    ghost view = { λ t. t.table.id };
}

impl<S: Draws, O: Draws, C: Drop> Turnstile<S, O, C> {
    ghost use Rattle.gate_core.specs.declared.waited.Waited.TheVariants.{Mine, Over, Closed};

    // The turnstile of this table.
    pub(crate) fn new(table: TurnTable<Held<S, O>>) -> Turnstile<S, O, C>
        ensures { result ≡ table.id }
    {
        Turnstile {
            table,
            note: OnceLock::new(),
        }
    }

    // Its table.
    pub(crate) fn into_table(self) -> TurnTable<Held<S, O>>
        ensures { result.id ≡ self }
    {
        let Turnstile { table, note: _ } = self;
        table
    }

    // Sets how often a thread peeks at the turn word before it sleeps.
    pub(crate) fn set_peeks(&mut self, peeks: u32)
        ensures { self.new ≡ self.old }
    {
        self.table.set_peeks(peeks);
    }

    /// Waits until the thread of the pass is granted a step, the core has a verdict or the gate is closed.
    pub fn wait_grant<'g, R: Wait>(&'g self, rt: &R, who: Pass<S, O>) -> Waited<'g, S, O, C>
        requires { IsPassAt self.now who }
        ensures { elim result [ Mine lent ↦ IsLentTo S.Draws O.Draws who lent | Over pass ↦ IsToldOver who pass | Closed pass note ↦ IsBack who pass ] }
    {
        let mut seat = who.into_seat();
        for _ in rt.forever() {
            if let Some(note) = self.note.get() {
                return Waited::Closed(Pass::new(seat), note);
            }
            match self.table.look(&mut seat) {
                Look::Mine(turn) => return Waited::Mine(Lent::new(&self.table, turn, seat)),
                Look::Over => return Waited::Over(Pass::new(seat)),
                Look::Other => self.table.rest(rt, &seat),
            }
        }
        unreachable!()
    }

    /// Closes the gate with a note: each wait ends from then on, and the core stays as it is. Where the gate was closed
    /// before, the first note stays and this one is dropped. It may wait for another thread that closes the gate.
    pub fn stop<R: Wait>(&self, rt: &R, note: C) {
        let _ = self.note.set(rt, note);
        // Whoever looked for the note before it was there, and rests then, is woken: a wake that comes first is kept.
        self.table.wake_all();
    }
}
