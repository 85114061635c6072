ghost use Rattle.std.specs.Prelude.{◌≡◌, ◌<◌, length, IfOk, MatchResult, OnOk, OnErr, Ok, Err};
ghost use Rattle.seed_draws.specs.Answers.{after_bounds, answers};
ghost use Rattle.surw_base.specs.declared.limits.TheConstants.{STEPS};
ghost use Rattle.pct_draws.specs.ChangePoints.{IsWithinDepth};
ghost use Rattle.pct_draws.specs.Order.{IsOrder};
ghost use Rattle.walk_rules.specs.Pct.{pct_asked, pct_bounds, pct_memory, pct_picked};
ghost use Rattle.walk_rules.specs.Ranked.{IsFresh, IsReadyFor};
ghost use Rattle.walk_rules.specs.PctDraws.{draws_found, found_from};
ghost use Rattle.walk_rules.specs.State.{memory_of};
ghost use Rattle.walk_rules.specs.Seen.{able_threads};
ghost use Rattle.walk_rules.specs.Walk.{GrantsAble};

use crate::ranks::Ranks;
use crate::{Announced, Picked};
use arrayvec::ArrayVec;
use draw_split::Weights;
use pct_draws::{draw_changes, draw_order};
use seed_draws::{DrawFault, Draws};
use surw_base::THREADS;

// Makes the changes before a step, at the first one after the draws, and picks the thread of highest priority.
#[inline(never)]
pub(crate) fn pick<S: Draws>(
    depth: u8,
    counts: &Weights,
    step: u32,
    ranks: &mut Ranks,
    view: &Announced,
    selected: &mut S,
) -> Picked
    requires depth { IsWithinDepth depth }
    requires room { step < STEPS }
    requires threads { ranks.old.threads ≡ length counts.now }
    requires each { length view.now ≡ length counts.now }
    requires able { 0 < length (able_threads view.now) }
    requires drawn { 0 < step → length ranks.old.priorities ≡ length counts.now }
    requires fresh { 0 < step → IsFresh step ranks.old.changes ranks.old.priorities }
    ensures picked { result ≡ pct_picked step view.now (found_from S.Draws depth step counts.now ranks.old selected.old) }
    ensures memory { memory_of ranks.new
        ≡ pct_memory step view.now (memory_of ranks.old) (found_from S.Draws depth step counts.now ranks.old selected.old) }
    ensures able { GrantsAble view.now result }
    ensures selected { selected.new ≡ after_bounds S.Draws selected.old (pct_asked depth step counts.now) }
    ensures threads { ranks.new.threads ≡ ranks.old.threads }
    ensures ready { IsReadyFor step ranks.old ranks.new result }
{
    match ready(depth, counts, step, ranks, selected) {
        Ok(()) => {
            ranks.change(step, view.as_slice());
            Picked::Grant {
                thread: ranks.highest(view.as_slice()),
                forced: false,
            }
        }
        Err(fault) => Picked::Stop(fault),
    }
}

// At the first step, draws the priorities and the change points.
fn ready<S: Draws>(
    depth: u8,
    counts: &Weights,
    step: u32,
    ranks: &mut Ranks,
    selected: &mut S,
) -> Result<(), DrawFault>
    requires depth { IsWithinDepth depth }
    requires threads { ranks.old.threads ≡ length counts.now }
    requires drawn { 0 < step → length ranks.old.priorities ≡ length counts.now }
    requires fresh { 0 < step → IsFresh step ranks.old.changes ranks.old.priorities }
    ensures found { MatchResult result
        (λ _. found_from S.Draws depth step counts.now ranks.old selected.old ≡ Ok (memory_of ranks.new))
        (λ fault. found_from S.Draws depth step counts.now ranks.old selected.old ≡ Err fault) }
    ensures threads { ranks.new.threads ≡ length counts.now }
    ensures drawn { OnOk result (length ranks.new.priorities ≡ length counts.now) }
    ensures fresh { OnOk result (IsFresh step ranks.new.changes ranks.new.priorities) }
    ensures stays { OnErr result (ranks.new ≡ ranks.old) }
    ensures selected { selected.new ≡ after_bounds S.Draws selected.old (pct_asked depth step counts.now) }
{
    if step > 0 {
        return Ok(());
    }
    match draw(depth, counts, selected) {
        Ok((order, changes)) => {
            ranks.put_in_order(order.as_slice(), u32::from(depth), changes);
            Ok(())
        }
        Err(fault) => Err(fault),
    }
}

// Draws an order of the threads, and the change points where there are events.
fn draw<S: Draws>(
    depth: u8,
    counts: &Weights,
    selected: &mut S,
) -> Result<(ArrayVec<u8, THREADS>, ArrayVec<u64, THREADS>), DrawFault>
    requires depth { IsWithinDepth depth }
    ensures drawn { MatchResult result
        (λ drawn. draws_found (length counts.now) (answers S.Draws selected.old (pct_bounds depth counts.now))
        ≡ Ok (drawn.0.items, drawn.1.items))
        (λ fault. answers S.Draws selected.old (pct_bounds depth counts.now) ≡ Err fault) }
    ensures order { IfOk result (λ drawn. IsOrder (length counts.now) drawn.0.items) }
    ensures points { IfOk result (λ drawn. length drawn.1.items < depth) }
    ensures selected { selected.new ≡ after_bounds S.Draws selected.old (pct_bounds depth counts.now) }
{
    match draw_order(counts, selected) {
        Ok(order) => match draw_changes(depth, counts.sum(), selected) {
            Ok(changes) => Ok((order, changes)),
            Err(fault) => Err(fault),
        },
        Err(refusal) => Err(refusal),
    }
}
