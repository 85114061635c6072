ghost use Rattle.std.specs.Prelude.{◌≡◌, ◌∷◌, [], IsSome};
ghost use Rattle.routine_kit.specs.Run.{after_replies};

use super::*;
use std::process::Abort;
use std::test::Fail;

// Asserts that a routine announces these events, each before it is told the reply beside it, and then has ended.
pub(crate) fn assert_steps<R: Routine>(rt: &impl Abort, mut routine: R, steps: &[(Event, u64)]) {
    for (event, reply) in steps {
        let announced = routine.announce();
        assert_eq!(rt; announced, Some(*event));
        if announced.is_some() {
            routine.take(*reply);
        }
    }
    assert_eq!(rt; routine.announce(), None);
}

/// Stores the numbers from `next` to below `end` in cell 0, whatever is replied.
#[derive(Clone, Copy, Debug, PartialEq, Eq)]
struct Counter {
    next: u64,
    end: u64,
}

impl Routine for Counter {
    ghost use Rattle.std.specs.Prelude.{◌+◌, ltb, if◌then◌else◌, None, Some};
    ghost use Rattle.event_class.specs.declared.event.Event.TheVariants.{Store};

    ghost announced = { λ counter. if ltb counter.next counter.end then Some (Store 0 counter.next) else None };

    ghost after_reply = { λ counter reply. record { next = counter.next + 1; end = counter.end } };

    fn announce(&self) -> Option<Event> {
        if self.next < self.end {
            Some(Event::Store { c: 0, v: self.next })
        } else {
            None
        }
    }

    fn take(&mut self, _reply: u64) {
        self.next += 1;
    }

    fn copy(&self, _alloc: Global) -> Result<Counter, OutOfMemory> {
        Ok(*self)
    }
}

// One reply, as a definition has it that follows a routine through a list of them.
#[tactic(auto, unfolding(crate::specs::Run::after_replies))]
fn tell<R: Routine>(routine: &mut R, reply: u64)
    requires { IsSome (R.announced routine.old) }
    ensures { routine.new ≡ after_replies R.after_reply routine.old (reply ∷ []) }
{
    routine.take(reply);
}

#[test]
fn a_routine_of_the_test_itself(rt: HostRuntime) -> Result<(), Fail> {
    let mut counter = Counter { next: 7, end: 8 };
    let kept = copies(rt.alloc(), &[counter])?;
    assert_eq!(rt; counter.announce(), Some(Event::Store { c: 0, v: 7 }));
    tell(&mut counter, 0);
    assert_eq!(rt; counter.announce(), None);
    assert_eq!(rt; kept.as_slice(), [Counter { next: 7, end: 8 }].as_slice());
    Ok(())
}
