ghost use Rattle.std.specs.Prelude.{◌≡◌, ◌<◌, ◌∷◌, []};
ghost use Rattle.seed_draws.specs.Answers.{after_bounds, answers};
ghost use Rattle.walk_rules.specs.Granted.{granted_at};
ghost use Rattle.walk_rules.specs.Plain.{plain_bound, plain_thread};
ghost use Rattle.walk_rules.specs.Walk.{GrantsAble};

use crate::{Announced, Picked};
use seed_draws::Draws;

// Picks among the threads that can go on by their number.
#[tactic(auto, using(crate::proofs::AbleThreads::picks), unfolding(seed_draws::specs::Answers::answers, seed_draws::specs::Answers::after_bounds))]
#[inline(always)]
pub(crate) fn pick<O: Draws>(view: &Announced, other: &mut O) -> Picked
    requires { 0 < plain_bound view.now }
    ensures picked { result ≡ granted_at (plain_thread view.now) (answers O.Draws other.old (plain_bound view.now ∷ [])) }
    ensures able { GrantsAble view.now result }
    ensures other { other.new ≡ after_bounds O.Draws other.old (plain_bound view.now ∷ []) }
{
    match other.below(view.able() as u64) {
        Ok(draw) => Picked::Grant {
            thread: view.able_at(draw),
            forced: false,
        },
        Err(fault) => Picked::Stop(fault),
    }
}
