ghost use Rattle.std.specs.Prelude.{◌≡◌, ◌^◌, ◌<◌, ◌∷◌, [], length};
ghost use Rattle.surw_base.specs.declared.limits.TheConstants.{THREADS};
ghost use Rattle.seed_draws.specs.Answers.{after_bounds, answers};
ghost use Rattle.walk_rules.specs.Seen.{able_threads, seen_of};
ghost use Rattle.walk_rules.specs.Surw.{candidate_at, candidates, intention_bounds, intention_by, narrow};
ghost use Rattle.walk_rules.specs.ThreadSet.{members};
ghost use Rattle.walk_rules.specs.Walk.{GrantsAble};

use crate::thread_set::ThreadSet;
use crate::{Announced, Picked, Seen};
use draw_split::{Weights, split_one};
use seed_draws::{DrawFault, Draws};
use surw_base::{THREADS, ThreadNo};

// The thread that is intended: the one before, or the thread at a drawn place of the bag of the numbers left.
#[tactic(auto, unfolding(seed_draws::specs::Answers::answers, seed_draws::specs::Answers::after_bounds))]
#[inline(always)]
pub(crate) fn intend<S: Draws>(
    left: &Weights,
    intended: Option<ThreadNo>,
    selected: &mut S,
) -> Result<Option<ThreadNo>, DrawFault>
    ensures found { result ≡ intention_by intended left.now (answers S.Draws selected.old (intention_bounds intended left.now)) }
    ensures selected { selected.new ≡ after_bounds S.Draws selected.old (intention_bounds intended left.now) }
{
    match intended {
        Some(thread) => Ok(Some(thread)),
        None => {
            if left.sum() == 0 {
                return Ok(None);
            }
            match selected.below(left.sum()) {
                Ok(draw) => {
                    let (thread, _offset) = split_one(left.as_slice(), draw);
                    Ok(Some(thread))
                }
                Err(fault) => Err(fault),
            }
        }
    }
}

// Picks among the threads whose event isn't selected and the intended one, or among all where there is none of these.
#[tactic(auto, using(crate::proofs::AbleThreads::picks, crate::proofs::SurwLaws::places), unfolding(seed_draws::specs::Answers::answers, seed_draws::specs::Answers::after_bounds))]
#[inline(always)]
pub(crate) fn choose<O: Draws>(
    view: &Announced,
    intended: Option<ThreadNo>,
    other: &mut O,
) -> Picked
    requires { 0 < length (able_threads view.now) }
    ensures picked { result ≡ candidate_at view.now intended (answers O.Draws other.old (length (candidates intended view.now) ∷ [])) }
    ensures able { GrantsAble view.now result }
    ensures other { other.new ≡ after_bounds O.Draws other.old (length (candidates intended view.now) ∷ []) }
{
    let narrow = narrow(view, &intended);
    let count = narrow.len();
    if count == 0 {
        return match other.below(view.able() as u64) {
            Ok(draw) => Picked::Grant {
                thread: view.able_at(draw),
                forced: true,
            },
            Err(fault) => Picked::Stop(fault),
        };
    }
    match other.below(count as u64) {
        Ok(draw) => Picked::Grant {
            thread: narrow.at(draw),
            forced: false,
        },
        Err(fault) => Picked::Stop(fault),
    }
}

// The narrow candidates: the threads that can go on whose event isn't selected, and the intended one if it can go on.
fn narrow(view: &Announced, intended: &Option<ThreadNo>) -> ThreadSet
    ensures threads { members THREADS 0 result.bits ≡ narrow intended.now view.now }
    ensures few { result.bits < 2 ^ THREADS }
{
    let mut narrow = view.unselected();
    if let Some(thread) = *intended {
        let seen = seen_at(view.as_slice(), thread);
        narrow.change(thread, false, seen.is_selected());
    }
    narrow
}

// What is seen of a thread. One past the list has ended.
fn seen_at(view: &[Seen], thread: ThreadNo) -> Seen
    ensures { result ≡ seen_of view.now thread }
{
    view.get(usize::from(thread.get()))
        .copied()
        .unwrap_or(Seen::Over)
}
