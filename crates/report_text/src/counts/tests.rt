ghost use Rattle.std.specs.Prelude.{◌<◌};
ghost use Rattle.surw_base.specs.declared.limits.TheConstants.{THREADS};

use super::*;
use event_class::Event;
use surw_base::ThreadNo;

#[test]
fn a_switch_is_between_two_entries(rt: HostRuntime) {
    assert_eq!(rt; switches(&[]), 0);
    assert_eq!(rt; switches(&[step_of(1)]), 0);
    assert_eq!(rt; switches(&[step_of(1), step_of(1), step_of(1)]), 0);
    assert_eq!(rt; switches(&[step_of(0), step_of(1)]), 1);
    assert_eq!(rt;
        switches(&[step_of(1), step_of(0), step_of(0), step_of(1), step_of(0)]),
        3
    );
}

fn step_of(number: u8) -> Entry
    requires { number < THREADS }
{
    Entry {
        thread: ThreadNo::new(number).unwrap(),
        event: Event::Oldest,
        reply: 0,
        forced: false,
    }
}
