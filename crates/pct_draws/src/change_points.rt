ghost use Rattle.std.specs.Prelude.{◌≡◌, ◌<◌, length, IfOk, MatchResult, Ok, Err};
ghost use Rattle.pct_draws.specs.ChangePoints.{IsWithinDepth, change_bounds};
ghost use Rattle.seed_draws.specs.Answers.{after_bounds, answers};

use arrayvec::ArrayVec;
use seed_draws::{DrawFault, Draws};
use surw_base::THREADS;

/// Draws the change points, one fewer than the depth, each below the number of events; none where there are no events. It
/// ends with the refusal where the source refuses a draw. The depth is from 1 to `DEPTH`.
pub fn draw_changes<S: Draws>(
    depth: u8,
    events: u64,
    selected: &mut S,
) -> Result<ArrayVec<u64, THREADS>, DrawFault>
    requires { IsWithinDepth depth }
    ensures drawn { MatchResult result
        (λ changes. answers S.Draws selected.old (change_bounds depth events) ≡ Ok changes.items)
        (λ fault. answers S.Draws selected.old (change_bounds depth events) ≡ Err fault) }
    ensures points { IfOk result (λ changes. length changes.items < depth) }
    ensures selected { selected.new ≡ after_bounds S.Draws selected.old (change_bounds depth events) }
{
    let mut changes = ArrayVec::new();
    if events > 0 {
        for _point in 1..depth {
            match selected.below(events) {
                Ok(draw) => changes.push(draw),
                Err(fault) => return Err(fault),
            }
        }
    }
    Ok(changes)
}
