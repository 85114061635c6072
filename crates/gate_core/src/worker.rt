ghost use Rattle.std.specs.Prelude.{◌≡◌, false};
ghost use Rattle.turn_table.specs.Seat.{RestsAgain};
ghost use Rattle.gate_core.specs.Gate.{IsBack, IsPassAt};

use crate::{Lent, Log, Pass, Stage, Turnstile, Waited};
use event_class::Event;
use routine_kit::Routine;
use seed_draws::Draws;
use std::snapshot::Snapshot;
use std::sync::Wait;
use std::thread::Promise;

/// What a worker hands back.
#[derive(Drop)]
pub struct Worked<R: Routine, S: Draws, O: Draws> {
    /// Its events and replies.
    pub log: Log<R>,
    /// Its pass, as it began with it but for the rounds that it was given.
    pub pass: Pass<S, O>,
}

/// A worker's promise: to hand back the pass that it begins with, which rests again, and a log of the routine that it
/// begins with.
#[derive(Drop)]
pub struct HandsBack<R: Routine, S: Draws, O: Draws> {
    /// The log at the start.
    pub log: Snapshot<Log<R>>,
    /// The pass at the start.
    pub pass: Snapshot<Pass<S, O>>,
}

impl<R: Routine, S: Draws, O: Draws> Promise<Worked<R, S, O>> for HandsBack<R, S, O> {
    ghost kept_by = { λ promise worked. (worked.log.start ≡ promise.log.value.start) × RestsAgain promise.pass.value worked.pass };
}

/// Makes the steps of one thread, each when it is granted, until the core has a verdict or the gate is closed.
pub(crate) fn work<R: Routine, S: Draws, O: Draws, C: Drop, G: Stage, W: Wait>(
    rt: &W,
    turnstile: &Turnstile<S, O, C>,
    stage: &G,
    pass: Pass<S, O>,
    mut log: Log<R>,
) -> Worked<R, S, O>
    requires { IsPassAt turnstile.now pass }
    ensures { (result.log.start ≡ log.start) × RestsAgain pass result.pass }
{
    let thread = pass.thread();
    stage.born(thread);
    let mut pass = pass;
    let mut word = log.next();
    for _ in rt.forever() {
        match turnstile.wait_grant(rt, pass) {
            Waited::Mine(lent) => {
                let step = lent.step();
                stage.at_turn(thread, step);
                pass = make_step(lent, &mut log, &mut word);
                stage.handed(thread, step);
            }
            Waited::Over(pass) | Waited::Closed(pass, _) => return Worked { log, pass },
        }
    }
    unreachable!()
}

// Makes the step, tells the routine the reply, and says what it announces then. Its event is what it said last.
fn make_step<R: Routine, S: Draws, O: Draws>(
    mut lent: Lent<'_, S, O>,
    log: &mut Log<R>,
    word: &mut Option<Event>,
) -> Pass<S, O>
    requires first { lent.performed ≡ false }
    requires word { word.old ≡ R.announced log.old.now }
    ensures pass { IsBack lent.entry.seat result }
    ensures start { log.new.start ≡ log.old.start }
    ensures word { word.new ≡ R.announced log.new.now }
{
    let reply = lent.perform();
    log.take(*word, reply);
    *word = log.next();
    lent.hand_on(*word)
}
