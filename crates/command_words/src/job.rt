ghost use Rattle.std.specs.Prelude.{◌≡◌, Contains, MatchOption};
ghost use Rattle.command_words.specs.Job.{can_choose, can_save, can_seed, job_word, reads_saved};

/// What can be asked for.
#[derive(Clone, Copy, Debug, PartialEq, Eq)]
pub enum Job {
    /// The order and the offsets that draws name.
    Order,
    /// The draws that name an order and offsets.
    Draws,
    /// The run of a scenario.
    Plan,
    /// The profile of a scenario.
    Profile,
    /// What a saved run tells.
    Check,
    /// The scenario that a number makes.
    Make,
    /// The run of a scenario, with a thread of its own for each of its threads.
    Run,
    /// A saved run of a scenario once more, with a thread of its own for each of its threads.
    Replay,
}

impl Job {
    // The word that asks for it.
    pub(crate) fn word(self) -> &'static str
        ensures { result.now ≡ job_word self }
    {
        match self {
            Job::Order => "order",
            Job::Draws => "draws",
            Job::Plan => "plan",
            Job::Profile => "profile",
            Job::Check => "check",
            Job::Make => "make",
            Job::Run => "run",
            Job::Replay => "replay",
        }
    }

    // Whether it reads a saved file beside its first.
    pub(crate) fn reads_saved(self) -> bool
        ensures { result ≡ reads_saved self }
    {
        matches!(self, Job::Replay)
    }

    // Whether what it makes can be saved.
    pub(crate) fn can_save(self) -> bool
        ensures { result ≡ can_save self }
    {
        matches!(self, Job::Plan | Job::Run)
    }

    // Whether the strategy and the depth of its scenario can be chosen.
    pub(crate) fn can_choose(self) -> bool
        ensures { result ≡ can_choose self }
    {
        matches!(self, Job::Plan | Job::Run)
    }

    // Whether the seed of its scenario can be chosen.
    pub(crate) fn can_seed(self) -> bool
        ensures { result ≡ can_seed self }
    {
        matches!(self, Job::Plan | Job::Profile | Job::Run)
    }
}

// The job of a word among these. None exactly where it is the word of none of them.
pub(crate) fn job_of(jobs: &[Job], word: &str) -> Option<Job>
    ensures { MatchOption result
        ((job : Job) → Contains jobs.now job → word.now ≡ job_word job → ⊥)
        (λ job. Contains jobs.now job × (word.now ≡ job_word job)) }
{
    for job in jobs {
        if job.word() == word {
            return Some(*job);
        }
    }
    None
}
