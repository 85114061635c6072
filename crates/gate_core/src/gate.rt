ghost use Rattle.std.specs.Prelude.{◌≡◌, ℕ, ◌<◌, ◌≤◌, [], All, IfOk, IfErr, MatchBool, false, true, length, vec_len, vec_capacity};
ghost use Rattle.std.specs.List.{list_any};
ghost use Rattle.pure_run.specs.Core.{is_due};
ghost use Rattle.turn_table.specs.Count.{below};
ghost use Rattle.turn_table.specs.Seat.{given_to};
ghost use Rattle.gate_core.specs.Gate.{AreAllPasses, AreNewPasses, IsBack, IsLentTo, IsPassOf, IsToldOver};

use crate::held::Held;
use crate::{Pass, Turnstile, Waited};
use pure_run::Core;
use seed_draws::Draws;
use std::alloc::Global;
use std::marker::Model;
use std::mem::replace;
use std::sync::Wait;
use surw_base::OutOfMemory;
use turn_table::{TurnSeat, TurnTable};

/// A gate before a core: threads wait at it, and the one that is granted the next step is let in. Each thread sleeps
/// at a place of its own, so that a step wakes the next thread alone. `C` is what the gate is closed with.
#[derive(Drop)]
pub struct Gate<S: Draws, O: Draws, C: Drop> {
    turnstile: Turnstile<S, O, C>,
    // The seats of the passes until those are given out, and room for them afterwards. A core without threads has one
    // seat, which stays here.
    seats: Vec<TurnSeat<Held<S, O>>>,
    threads: usize,
    given: bool,
}

impl<S: Draws, O: Draws, C: Drop> Model for Gate<S, O, C> {
    ghost use Rattle.std.specs.Prelude.{vec_capacity};
    ghost use Rattle.gate_core.specs.Gate.{GateState, KeepsSeats};

    ghost Value = { GateState };

    ghost view = { λ g. record { table = g.turnstile; threads = g.threads; given = g.given } };

    ghost invariant = { λ g. KeepsSeats (record { table = g.turnstile; threads = g.threads; given = g.given }) g.seats.items (vec_capacity g.seats) };
}

impl<S: Draws, O: Draws, C: Drop> Gate<S, O, C> {
    ghost use Rattle.gate_core.specs.declared.waited.Waited.TheVariants.{Mine, Over, Closed};

    /// A gate before a core that has made no step and in which each thread has said its first word. An error comes
    /// only where memory is refused.
    pub fn new(alloc: Global, core: Core<S, O>) -> Result<Gate<S, O, C>, OutOfMemory>
        requires said { list_any is_due core.words ≡ false }
        requires first { core.journal ≡ [] }
        ensures threads { IfOk result (λ gate. gate.threads ≡ core.opening.threads) }
        ensures given { IfOk result (λ gate. gate.given ≡ false) }
    {
        let threads = core.threads();
        // A table has one seat at least.
        let count = threads.max(1) as u8;
        let held = Held::new(alloc, core)?;
        let (table, seats) = TurnTable::new(alloc, held, count)?;
        Ok(Gate {
            turnstile: Turnstile::new(table),
            seats,
            threads,
            given: false,
        })
    }

    /// The passes of all threads, in their order, at the first call; none at a later one. An error comes only where
    /// memory is refused, and then they can be asked for again.
    pub fn passes(&mut self, alloc: Global) -> Result<Vec<Pass<S, O>>, OutOfMemory>
        ensures passes { IfOk result (λ passes. MatchBool self.old.given (passes.items ≡ []) (AreNewPasses self.old passes.items)) }
        ensures given { IfOk result (λ _. self.new ≡ record self.old { given = true }) }
        ensures kept { IfErr result (λ _. self.new ≡ self.old) }
    {
        if self.given {
            return Ok(Vec::new(alloc));
        }
        let passes = Vec::with_capacity(alloc, self.threads)?;
        let room = Vec::with_capacity(alloc, self.threads)?;
        self.given = true;
        if self.threads == 0 {
            return Ok(passes);
        }
        Ok(passes_of(replace(&mut self.seats, room), passes))
    }

    /// Sets how often a thread that isn't granted a step peeks at the turn word before it sleeps; 1000, where this isn't
    /// called. Where there are fewer processors than threads 0 is best.
    pub fn set_peeks(&mut self, peeks: u32)
        ensures { self.new ≡ self.old }
    {
        self.turnstile.set_peeks(peeks);
    }

    /// What its threads share.
    pub fn turnstile(&self) -> &Turnstile<S, O, C>
        ensures { result.now ≡ self.now.table }
    {
        &self.turnstile
    }

    /// Waits until the thread of the pass is granted a step, the core has a verdict or the gate is closed.
    pub fn wait_grant<'g, R: Wait>(&'g self, rt: &R, who: Pass<S, O>) -> Waited<'g, S, O, C>
        requires { IsPassOf self.now who }
        ensures { elim result [ Mine lent ↦ IsLentTo S.Draws O.Draws who lent | Over pass ↦ IsToldOver who pass | Closed pass note ↦ IsBack who pass ] }
    {
        self.turnstile.wait_grant(rt, who)
    }

    /// Closes the gate with a note: each wait ends from then on, and the core stays as it is. Where the gate was closed
    /// before, the first note stays and this one is dropped. It may wait for another thread that closes the gate.
    pub fn stop<R: Wait>(&self, rt: &R, note: C) {
        self.turnstile.stop(rt, note);
    }

    /// The core, for all passes in the order of their threads. Each of its steps is a round of one of them, once, and
    /// they have no other.
    pub fn into_core(self, passes: Vec<Pass<S, O>>) -> Core<S, O>
        requires { AreAllPasses self passes.items }
        ensures { (step : ℕ) → given_to step passes.items ≡ below step (length result.journal) }
    {
        let Gate {
            turnstile,
            seats,
            ..
        } = self;
        let seats = seats_of(passes, seats);
        turnstile.into_table().close(seats).state.into_core()
    }
}

// A pass for each seat, put into this empty list.
fn passes_of<S: Draws, O: Draws>(
    seats: Vec<TurnSeat<Held<S, O>>>,
    mut passes: Vec<Pass<S, O>>,
) -> Vec<Pass<S, O>>
    requires rest { All (λ seat. seat.view.turn ≡ false) seats.items }
    requires room { (vec_len passes ≡ 0) × (vec_len seats ≤ vec_capacity passes) }
    ensures { result.items ≡ seats.items }
{
    for seat in seats {
        passes.push_reserved(Pass::new(seat));
    }
    passes
}

// The seats of the passes, put into a list of seats in the place of those; without passes the seats that are in it.
fn seats_of<S: Draws, O: Draws>(
    passes: Vec<Pass<S, O>>,
    mut seats: Vec<TurnSeat<Held<S, O>>>,
) -> Vec<TurnSeat<Held<S, O>>>
    requires { vec_len passes ≤ vec_capacity seats }
    ensures all { 0 < vec_len passes → result.items ≡ passes.items }
    ensures none { vec_len passes ≡ 0 → result.items ≡ seats.items }
{
    if passes.is_empty() {
        return seats;
    }
    seats.clear();
    for pass in passes {
        seats.push_reserved(pass.into_seat());
    }
    seats
}
