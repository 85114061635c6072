ghost use Rattle.std.specs.Prelude.{◌≡◌, ℕ, Option, IsSome, IfOk};
ghost use Rattle.event_class.specs.declared.event.Event.{Event};

use event_class::Event;
use std::alloc::Global;
use surw_base::OutOfMemory;

/// One thread of a test. It announces its next event, and goes on once it is told the reply.
pub trait Routine: Drop {
    /// The event that it announces, and none where it has ended.
    ghost announced: { Self → Option Event };

    /// What it is after the reply to that event.
    ghost after_reply: { Self → ℕ → Self };

    /// Its next event. None where it has ended.
    fn announce(&self) -> Option<Event>
        ensures { result ≡ announced self.now };

    /// Tells it the reply to the event that it announces.
    fn take(&mut self, reply: u64)
        requires { IsSome (announced self.old) }
        ensures { self.new ≡ after_reply self.old reply };

    /// An equal routine. An error comes only where memory is refused.
    fn copy(&self, alloc: Global) -> Result<Self, OutOfMemory>
        ensures { IfOk result (λ copy. copy ≡ self.now) };
}

/// Equal routines, in their order. An error comes only where memory is refused.
pub fn copies<R: Routine>(alloc: Global, routines: &[R]) -> Result<Vec<R>, OutOfMemory>
    ensures { IfOk result (λ copies. copies.items ≡ routines.now) }
{
    let mut copies = Vec::new(alloc);
    for routine in routines {
        copies.push(routine.copy(alloc)?)?;
    }
    Ok(copies)
}

#[cfg(test)]
pub(crate) mod tests;
