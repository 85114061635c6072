ghost use Rattle.std.specs.Prelude.{◌≡◌, IfErr, IfOk, false, map, string_bytes};
ghost use Rattle.clap.specs.Words.{app_of, rule_of};
ghost use Rattle.command_words.specs.Command.{is_taken, option, positional, surw_app};
ghost use Rattle.command_words.specs.Given.{IsGiven, given_by};

use crate::WordFault;
use clap::error::ErrorKind;
use clap::{Arg, ArgAction, Command};
use std::alloc::{AllocError, Global};

// The texts that words give.
#[derive(Clone, Copy, Debug)]
pub(crate) struct Given<'a> {
    pub job: Option<&'a str>,
    pub name: Option<&'a str>,
    pub saved: Option<&'a str>,
    pub strategy: Option<&'a str>,
    pub seed: Option<&'a str>,
    pub depth: Option<&'a str>,
    pub save: Option<&'a str>,
}

// The program's command.
fn command<'a>(alloc: Global) -> Result<Command<'a>, AllocError>
    ensures { IfOk result (λ command. app_of command ≡ surw_app) }
{
    let command = Command::new(alloc, "surw")
        .no_binary_name(true)
        .arg(positional(alloc, "job", true))?
        .arg(positional(alloc, "name", true))?
        .arg(positional(alloc, "saved", false))?
        .arg(option(alloc, "strategy"))?
        .arg(option(alloc, "seed"))?
        .arg(option(alloc, "depth"))?
        .arg(option(alloc, "save"))?;
    Ok(command)
}

// A value by its place.
fn positional<'a>(alloc: Global, id: &'a str, required: bool) -> Arg<'a>
    ensures rule { rule_of result ≡ positional id.entry.now required }
    ensures local { result.global ≡ false }
{
    Arg::new(alloc, id)
        .required(required)
        .action(ArgAction::Set)
}

// A value behind `--` and its name.
fn option<'a>(alloc: Global, id: &'a str) -> Arg<'a>
    ensures rule { rule_of result ≡ option id.entry.now }
    ensures local { result.global ≡ false }
{
    Arg::new(alloc, id).long(id).action(ArgAction::Set)
}

// The texts that words give, where the command takes them.
pub(crate) fn read_given<'a>(alloc: Global, words: &'a [String]) -> Result<Given<'a>, WordFault>
    ensures given { IfOk result (λ given. IsGiven (map string_bytes words.now) (given_by given)) }
    ensures refused { IfErr result (λ fault. fault ≡ WordFault.Form → is_taken (map string_bytes words.now) ≡ false) }
{
    let command = match command(alloc) {
        Ok(command) => command,
        Err(_) => return Err(WordFault::OutOfMemory),
    };
    match command.try_get_matches_from(words) {
        Ok(matches) => Ok(Given {
            job: matches.get_str("job"),
            name: matches.get_str("name"),
            saved: matches.get_str("saved"),
            strategy: matches.get_str("strategy"),
            seed: matches.get_str("seed"),
            depth: matches.get_str("depth"),
            save: matches.get_str("save"),
        }),
        Err(error) => match error.kind() {
            ErrorKind::OutOfMemory => Err(WordFault::OutOfMemory),
            _ => Err(WordFault::Form),
        },
    }
}
