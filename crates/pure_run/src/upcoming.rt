ghost use Rattle.std.specs.Prelude.{◌≡◌, IsSome};
ghost use Rattle.pure_run.specs.declared.next.Next.TheVariants.{Due, Granted, Stopped};
ghost use Rattle.pure_run.specs.Upcoming.{granted_in};

use crate::Next;
use run_rules::Verdict;
use std::marker::Model;
use walk_rules::Grant;

/// What comes next in a run, kept so that a step, which has no verdict, writes no room for one. A contract sees a
/// `Next`.
#[derive(Debug, Drop)]
pub struct Upcoming {
    granted: Option<Grant>,
    stopped: Option<Verdict>,
}

impl Model for Upcoming {
    ghost use Rattle.std.specs.Prelude.{◌≡◌, IsSome, None};
    ghost use Rattle.pure_run.specs.declared.next.Next.{Next};
    ghost use Rattle.pure_run.specs.Upcoming.{next_of};

    ghost Value = { Next };

    ghost view = { λ upcoming. next_of upcoming.granted upcoming.stopped };

    // Where a step is granted there is no verdict.
    ghost invariant = { λ upcoming. IsSome upcoming.granted → upcoming.stopped ≡ None };
}

impl Upcoming {
    // A thread has to say its word.
    pub(crate) fn due() -> Upcoming
        ensures { result ≡ Due }
    {
        Upcoming {
            granted: None,
            stopped: None,
        }
    }

    // What it is.
    pub(crate) fn to_next(&self) -> Next
        ensures { result ≡ self.now }
    {
        if let Some(grant) = self.granted {
            return Next::Granted(grant);
        }
        match self.stopped {
            Some(verdict) => Next::Stopped(verdict),
            None => Next::Due,
        }
    }

    // Puts a grant, once no word is due.
    pub(crate) fn grant(&mut self, grant: Grant)
        requires { self.old ≡ Due }
        ensures { self.new ≡ Granted grant }
    {
        self.granted = Some(grant);
    }

    // Puts a verdict, once no word is due.
    pub(crate) fn stop(&mut self, verdict: Verdict)
        requires { self.old ≡ Due }
        ensures { self.new ≡ Stopped verdict }
    {
        self.stopped = Some(verdict);
    }

    // Puts that a word is due, once the step that was granted is made.
    pub(crate) fn wait(&mut self)
        requires { IsSome (granted_in self.old) }
        ensures { self.new ≡ Due }
    {
        self.granted = None;
    }
}
