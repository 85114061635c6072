use super::*;
use crate::{Choice, read_scenario};
use draw_split::Weights;
use routine_kit::Routine;
use run_rules::Plan;
use seed_draws::{AnyDraws, Draws};
use std::alloc::AllocError;
use std::test::Fail;

// The scenario of the number 1, written by hand. Behind eight threads the cells come again.
const HEAD: &str = "seed = 1
strategy = 'surw'
select = ['cell 0']
world = { cells = 8 }
thread = [
";

const EIGHT: &str =
    "  { kind = 'steps', times = 1250, lines = ['load 1 -> r0', 'plus r0 1', 'store 1 r0', 'add 1 1'] },
  { kind = 'steps', times = 1250, lines = ['load 2 -> r0', 'plus r0 1', 'store 2 r0', 'add 4 1'] },
  { kind = 'steps', times = 1250, lines = ['load 3 -> r0', 'plus r0 1', 'store 3 r0', 'add 7 1'] },
  { kind = 'steps', times = 1250, lines = ['load 4 -> r0', 'plus r0 1', 'store 4 r0', 'add 2 1'] },
  { kind = 'steps', times = 1250, lines = ['load 5 -> r0', 'plus r0 1', 'store 5 r0', 'add 5 1'] },
  { kind = 'steps', times = 1250, lines = ['load 6 -> r0', 'plus r0 1', 'store 6 r0', 'add 0 1'] },
  { kind = 'steps', times = 1250, lines = ['load 7 -> r0', 'plus r0 1', 'store 7 r0', 'add 3 1'] },
  { kind = 'steps', times = 1250, lines = ['load 0 -> r0', 'plus r0 1', 'store 0 r0', 'add 6 1'] },
";

const NOTHING: Choice = Choice {
    strategy: None,
    seed: None,
    depth: None,
};

// The plan of a scenario with zeros as its counts.
fn planned(
    alloc: Global,
    scenario: &Scenario,
) -> Result<Plan<AnyRoutine, AnyDraws, AnyDraws>, OutOfMemory> {
    let none = Weights::new(&[0; THREADS][..scenario.threads()]);
    scenario.plan(alloc, &NOTHING, &none)
}

// How many events, of at most 4,000, two routines announce alike where they are told the same replies.
fn alike(one: &mut AnyRoutine, other: &mut AnyRoutine) -> u64 {
    for reply in 0..4_000 {
        let event = one.announce();
        if event.is_none() || event != other.announce() {
            return reply;
        }
        one.take(reply);
        other.take(reply);
    }
    4_000
}

#[test]
fn a_made_scenario_is_that_of_its_text(rt: HostRuntime) -> Result<(), Fail> {
    let text = format!(in rt.alloc(); "{HEAD}{EIGHT}{EIGHT}]\n")?;
    let read = read_scenario(rt.alloc(), text.as_bytes()).map_err(|_| AllocError)?;
    let made = made_scenario(rt.alloc(), 1)?;
    assert!(rt; matches!(made.counts(), CountsRule::Profile));
    assert_eq!(rt;
        (made.threads(), made.depth(&NOTHING)),
        (read.threads(), read.depth(&NOTHING))
    );
    let mut due = planned(rt.alloc(), &read)?;
    let mut plan = planned(rt.alloc(), &made)?;
    assert_eq!(rt; (plan.world, plan.max_steps), (due.world, due.max_steps));
    assert_eq!(rt; plan.selection.as_slice(), due.selection.as_slice());
    assert!(rt; plan.walk.same(&due.walk));
    assert!(rt; plan.selected.same(&due.selected) && plan.other.same(&due.other));
    assert!(rt; plan.monitors.is_empty());
    for (one, other) in plan.routines.iter_mut().zip(due.routines.iter_mut()) {
        assert_eq!(rt; alike(one, other), 3_750);
        assert!(rt; one.announce().is_none() && other.announce().is_none());
    }
    let greatest = made_scenario(rt.alloc(), u64::MAX)?;
    assert_eq!(rt; greatest.seed(&NOTHING), u64::MAX);
    Ok(())
}
