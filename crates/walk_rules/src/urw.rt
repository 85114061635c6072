ghost use Rattle.std.specs.Prelude.{◌≡◌, ◌<◌, ◌≤◌, ◌∷◌, [], None, length};
ghost use Rattle.surw_base.specs.declared.limits.TheConstants.{THREADS};
ghost use Rattle.seed_draws.specs.Answers.{after_bounds, answers};
ghost use Rattle.walk_rules.specs.Granted.{granted_at};
ghost use Rattle.walk_rules.specs.Urw.{urw_bound, urw_thread};
ghost use Rattle.walk_rules.specs.Walk.{first_wrong, GrantsAble};

use crate::{Announced, Picked};
use draw_split::Weights;
use seed_draws::Draws;
use surw_base::{THREADS, ThreadNo};

// Picks the thread at a drawn place of the bag of the numbers left, kept to the threads that can go on.
#[tactic(auto, using(crate::proofs::AbleThreads::picks), unfolding(seed_draws::specs::Answers::answers, seed_draws::specs::Answers::after_bounds))]
#[inline(always)]
pub(crate) fn pick<S: Draws>(left: &Weights, view: &Announced, selected: &mut S) -> Picked
    requires each { length view.now ≡ length left.now }
    requires right { first_wrong left.now view.now ≡ None }
    requires some { 0 < urw_bound left.now view.now }
    ensures picked { result ≡ granted_at (urw_thread left.now view.now) (answers S.Draws selected.old (urw_bound left.now view.now ∷ [])) }
    ensures able { GrantsAble view.now result }
    ensures selected { selected.new ≡ after_bounds S.Draws selected.old (urw_bound left.now view.now ∷ []) }
{
    match selected.below(bound(left, view)) {
        Ok(draw) => Picked::Grant {
            thread: kept_at(left.as_slice(), view, draw),
            forced: false,
        },
        Err(fault) => Picked::Stop(fault),
    }
}

// The sum of the numbers left of the threads that can go on: of all but the held ones, since a thread that has ended has
// none left.
fn bound(left: &Weights, view: &Announced) -> u64
    requires each { length view.now ≡ length left.now }
    requires right { first_wrong left.now view.now ≡ None }
    ensures { result ≡ urw_bound left.now view.now }
{
    let mut held = view.held();
    let mut sum = left.sum();
    for _passed in 0..held.len() {
        let thread = held.take_lowest();
        sum -= u64::from(left.left(thread));
    }
    sum
}

// The thread at a place of that bag.
fn kept_at(left: &[u32], view: &Announced, place: u64) -> ThreadNo
    requires each { length view.now ≡ length left.now }
    requires threads { length left.now ≤ THREADS }
    requires drawn { place < urw_bound left.now view.now }
    ensures { result ≡ urw_thread left.now view.now place }
{
    let mut rest = place;
    for (thread, number) in left.iter().enumerate() {
        if view.is_able(thread) {
            let number = u64::from(*number);
            if rest < number {
                return ThreadNo::new(thread as u8).unwrap();
            }
            rest -= number;
        }
    }
    unreachable!()
}
