ghost use Rattle.std.specs.Prelude.{◌≡◌, ◌≤◌};
ghost use Rattle.routine_kit.specs.Adder.{new_adder, adder_announced, adder_after};

use crate::Routine;
use event_class::Event;
use std::alloc::Global;
use surw_base::OutOfMemory;

/// A routine that adds one to a cell: it loads the cell and swaps the value for one more, and tries again where
/// the cell has changed in between.
#[derive(Clone, Copy, Debug, PartialEq, Eq)]
pub struct Adder {
    cell: u64,
    // How many tries are left, the one that has begun with them.
    tries: u16,
    // What this try has loaded.
    loaded: Option<u64>,
}

impl Adder {
    /// An adder of a cell that has ended after so many tries at most.
    pub fn new(cell: u64, tries: u16) -> Adder
        requires { 1 ≤ tries }
        ensures { result ≡ new_adder cell tries }
    {
        Adder {
            cell,
            tries,
            loaded: None,
        }
    }
}

impl Routine for Adder {
    ghost announced = { adder_announced };

    ghost after_reply = { adder_after };

    fn announce(&self) -> Option<Event> {
        if self.tries == 0 {
            return None;
        }
        let c = self.cell;
        Some(match self.loaded {
            None => Event::Load { c },
            Some(a) => Event::SwapIf {
                c,
                a,
                b: a.wrapping_add(1),
            },
        })
    }

    fn take(&mut self, reply: u64) {
        match self.loaded {
            None => self.loaded = Some(reply),
            Some(loaded) => {
                self.loaded = None;
                self.tries = if reply == loaded { 0 } else { self.tries - 1 };
            }
        }
    }

    fn copy(&self, _alloc: Global) -> Result<Adder, OutOfMemory> {
        Ok(*self)
    }
}

#[cfg(test)]
mod tests {
    use super::*;

    #[test]
    fn an_adder_of_one_try(rt: HostRuntime) {
        let mut adder = Adder::new(0, 1);
        assert_eq!(rt; adder.announce(), Some(Event::Load { c: 0 }));
        adder.take(0);
        assert_eq!(rt; adder.announce(), Some(Event::SwapIf { c: 0, a: 0, b: 1 }));
        adder.take(0);
        assert_eq!(rt; adder.announce(), None);
    }

    #[test]
    fn an_adder_tries_again(rt: HostRuntime) {
        let mut adder = Adder::new(3, 2);
        adder.take(u64::MAX);
        assert_eq!(rt;
            adder.announce(),
            Some(Event::SwapIf {
                c: 3,
                a: u64::MAX,
                b: 0
            })
        );
        adder.take(7);
        assert_eq!(rt; adder.announce(), Some(Event::Load { c: 3 }));
        adder.take(7);
        assert_eq!(rt; adder.copy(rt.alloc()), Ok(adder));
        adder.take(9);
        assert_eq!(rt; adder.announce(), None);
    }
}
