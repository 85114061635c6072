ghost use Rattle.std.specs.Prelude.{◌≡◌, ◌≤◌};
ghost use Rattle.surw_base.specs.declared.limits.TheConstants.{SAVED_LIMIT};
ghost use Rattle.command_words.specs.Ask.{ask_by};
ghost use Rattle.surw_cli.specs.CommandAnswer.{saved_name};
ghost use Rattle.surw_cli.specs.Jobs.{file_limit};

use command_words::{Ask, Job};
use surw_base::{FILE_LIMIT, SAVED_LIMIT};

/// The most bytes of a job's file.
pub(crate) fn file_limit(job: Job) -> u32
    ensures limit { result ≡ file_limit job }
    ensures most { result ≤ SAVED_LIMIT }
{
    match job {
        Job::Check => SAVED_LIMIT,
        _ => FILE_LIMIT,
    }
}

/// The name of the saved file that is asked for, empty where there is none.
pub(crate) fn saved_name<'a>(ask: &Ask<'a>) -> &'a str
    ensures { result.now ≡ saved_name (ask_by ask.now).saved }
{
    match ask.saved {
        Some(name) => name,
        None => "",
    }
}
