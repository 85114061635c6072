ghost use Rattle.std.specs.Prelude.{◌≡◌, List, ℕ, IfSome, None, MatchOption, option_map};
ghost use Rattle.scenario_toml.specs.Texts.{strategy_of};
ghost use Rattle.command_words.specs.Ask.{AsksFor, AsksForNothing, IsRead, IsUnread, ask_by, number_by};
ghost use Rattle.command_words.specs.Given.{IsGiven, given_by};
ghost use Rattle.command_words.specs.Number.{depth_of, number_of};

use crate::Job;
use crate::command::Given;
use crate::job::job_of;
use crate::number::{read_depth, read_number};
use scenario_toml::{Choice, Strategy};

/// What words ask for.
#[derive(Clone, Copy, Debug, PartialEq, Eq)]
pub struct Ask<'a> {
    /// The job.
    pub job: Job,
    /// The name of its file, or for `make` the number in digits.
    pub name: &'a str,
    /// The name of a saved file, for `replay`.
    pub saved: Option<&'a str>,
    /// The name of the file to which a run is saved.
    pub save: Option<&'a str>,
    /// What is chosen in place of the values of a scenario.
    pub choice: Choice,
    /// The number that `name` is, for `make`; else 0.
    pub number: u64,
}

// What given texts ask for, where the job is one of `jobs`. None exactly where they ask for nothing.
pub(crate) fn ask_of<'a>(jobs: &[Job], given: &Given<'a>) -> Option<Ask<'a>>
    ensures { MatchOption result
        ((words : List (List ℕ)) → IsGiven words (given_by given.now) → AsksForNothing jobs.now words)
        (λ ask. (words : List (List ℕ)) → IsGiven words (given_by given.now) → AsksFor jobs.now words (ask_by ask)) }
{
    let job = job_of(jobs, given.job?)?;
    let name = given.name?;
    let strategy = strategy_given(given.strategy)?;
    let seed = seed_given(given.seed)?;
    let depth = depth_given(given.depth)?;
    let number = number_given(job, name)?;
    if given.saved.is_some() != job.reads_saved() {
        return None;
    }
    if given.save.is_some() && !job.can_save() {
        return None;
    }
    if (strategy.is_some() || depth.is_some()) && !job.can_choose() {
        return None;
    }
    if seed.is_some() && !job.can_seed() {
        return None;
    }
    Some(Ask {
        job,
        name,
        saved: given.saved,
        save: given.save,
        choice: Choice {
            strategy,
            seed,
            depth,
        },
        number,
    })
}

// The strategy of a text that may be given. None exactly where it is given and no strategy's.
fn strategy_given(text: Option<&str>) -> Option<Option<Strategy>>
    ensures { MatchOption result
        (IsUnread strategy_of (option_map (λ text. text.now) text.entry))
        (λ strategy. IsRead strategy_of (option_map (λ text. text.now) text.entry) strategy) }
{
    match text {
        None => Some(None),
        Some(text) => Some(Some(Strategy::of(text.as_bytes())?)),
    }
}

// The number of a text that may be given. None exactly where it is given and no number's.
fn seed_given(text: Option<&str>) -> Option<Option<u64>>
    ensures { MatchOption result
        (IsUnread number_of (option_map (λ text. text.now) text.entry))
        (λ seed. IsRead number_of (option_map (λ text. text.now) text.entry) seed) }
{
    match text {
        None => Some(None),
        Some(text) => Some(Some(read_number(text)?)),
    }
}

// The depth of a text that may be given. None exactly where it is given and no depth's.
fn depth_given(text: Option<&str>) -> Option<Option<u8>>
    ensures { MatchOption result
        (IsUnread depth_of (option_map (λ text. text.now) text.entry))
        (λ depth. IsRead depth_of (option_map (λ text. text.now) text.entry) depth) }
{
    match text {
        None => Some(None),
        Some(text) => Some(Some(read_depth(text)?)),
    }
}

// The number of a job over this name. None exactly where the job is `make`, and the name no number's.
fn number_given(job: Job, name: &str) -> Option<u64>
    ensures { result ≡ number_by job name.now }
{
    match job {
        Job::Make => read_number(name),
        _ => Some(0),
    }
}
