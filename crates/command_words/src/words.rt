ghost use Rattle.std.specs.Prelude.{◌≡◌, IfErr, IfOk, map, string_bytes};
ghost use Rattle.command_words.specs.Ask.{AsksFor, AsksForNothing, ask_by};

use crate::ask::ask_of;
use crate::command::read_given;
use crate::{Ask, Job};
use std::alloc::Global;

/// Why words aren't read.
#[derive(Clone, Copy, Debug, PartialEq, Eq)]
pub enum WordFault {
    /// They ask for nothing.
    Form,
    /// Memory was refused.
    OutOfMemory,
}

/// What words ask for, where the job is one of `jobs`. Form exactly where they ask for nothing, unless memory was
/// refused.
pub fn read_words<'a>(
    alloc: Global,
    jobs: &[Job],
    words: &'a [String],
) -> Result<Ask<'a>, WordFault>
    ensures ok { IfOk result (λ ask. AsksFor jobs.now (map string_bytes words.now) (ask_by ask)) }
    ensures form { IfErr result (λ fault. fault ≡ WordFault.Form → AsksForNothing jobs.now (map string_bytes words.now)) }
{
    let given = read_given(alloc, words)?;
    ask_of(jobs, &given).ok_or(WordFault::Form)
}

#[cfg(test)]
mod tests;
