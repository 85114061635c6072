ghost use Rattle.std.specs.Prelude.{◌≡◌, ◌≤◌, length, replicate, IfOk, MatchResult, Ok, Err};
ghost use Rattle.pct_draws.specs.Order.{IsOrder, order_found};
ghost use Rattle.seed_draws.specs.Answers.{after_bounds, answers};
ghost use Rattle.seed_draws.specs.Falling.{falling};
ghost use Rattle.surw_base.specs.declared.limits.TheConstants.{THREADS};

use arrayvec::ArrayVec;
use draw_split::{Weights, split_one};
use seed_draws::{DrawFault, Draws};
use surw_base::THREADS;

/// Draws an order of the counted threads. It ends with the refusal where the source refuses a draw.
pub fn draw_order<S: Draws>(
    counts: &Weights,
    selected: &mut S,
) -> Result<ArrayVec<u8, THREADS>, DrawFault>
    ensures drawn { MatchResult result
        (λ order. order_found (replicate (length counts.now) 1) (answers S.Draws selected.old (falling (length counts.now)))
        ≡ Ok order.items)
        (λ fault. answers S.Draws selected.old (falling (length counts.now)) ≡ Err fault) }
    ensures order { IfOk result (λ order. IsOrder (length counts.now) order.items) }
    ensures selected { selected.new ≡ after_bounds S.Draws selected.old (falling (length counts.now)) }
{
    let mut order = ArrayVec::new();
    let mut left = ones(counts);
    while left.sum() > 0 {
        match selected.below(left.sum()) {
            Ok(draw) => {
                let (thread, _offset) = split_one(left.as_slice(), draw);
                order.push(thread.get());
                left.take(thread);
            }
            Err(fault) => return Err(fault),
        }
    }
    Ok(order)
}

// A count of 1 for each counted thread.
fn ones(counts: &Weights) -> Weights
    ensures ones { result ≡ replicate (length counts.now) 1 }
    ensures few { length counts.now ≤ THREADS }
{
    let all = [1; THREADS];
    Weights::new(&all[..counts.threads()])
}
