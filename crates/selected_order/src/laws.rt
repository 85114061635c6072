//! What holds of SURW. A law does nothing when it is called: its contract is the law.

ghost use Rattle.run_rules.specs.Plan.{IsValidPlan};
ghost use Rattle.selected_order.specs.EveryOrder.{tape_script, EveryOrderOf, OrdersComeEquallyOftenOf};
ghost use Rattle.selected_order.specs.SelectedOrder.{EndsInOrder};
ghost use Rattle.selected_order.specs.SurwIsUrw.{SurwIsUrwOf};
ghost use Rattle.selected_order.specs.SurwScript.{EndsUnforced};

use routine_kit::Routine;
use run_rules::Plan;
use seed_draws::{LooseTape, StrictTape};

/// Where a run under SURW ends and no entry is forced, the selected events stand in the order that the draws name.
pub fn ends_in_order()
    ensures { EndsInOrder }
{}

/// The run under SURW of a script that is never blocked, whose counts are true and that keeps within the step limit
/// ends, and no entry is forced, where its sources don't refuse.
pub fn ends_unforced()
    ensures { EndsUnforced }
{}

/// Where a plan under SURW is never blocked, its counts are true and it keeps within the step limit: whatever the
/// other tape, its run on a draw list has the order that the draws name, so each order comes on equally many draw
/// lists.
pub fn every_order<R: Routine>(plan: &Plan<R, StrictTape, LooseTape>)
    requires { IsValidPlan plan.now }
    ensures named { EveryOrderOf (tape_script R.Routine plan.now) }
    ensures equally { OrdersComeEquallyOftenOf (tape_script R.Routine plan.now) }
{
    let _ = plan;
}

/// Where every event is selected and nothing blocks, the run of a plan under SURW is its run under URW, with the
/// same verdict.
pub fn surw_is_urw<R: Routine>(plan: &Plan<R, StrictTape, LooseTape>)
    requires { IsValidPlan plan.now }
    ensures { SurwIsUrwOf (tape_script R.Routine plan.now) }
{
    let _ = plan;
}
