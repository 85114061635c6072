ghost use Rattle.std.specs.Prelude.{◌≡◌, ◌++◌, IfOk, IfErr};
ghost use Rattle.surw_cli.specs.MakeAnswer.{digest_line, make_answer};
ghost use Rattle.surw_cli.specs.Reached.{report_answer};
ghost use Rattle.surw_cli.specs.Stop.{IsStopOf};

use crate::jobs::choice::NO_CHOICE;
use crate::jobs::counts::counts_of;
use crate::jobs::outcome::status_of;
use crate::report::Report;
use crate::stop::Stop;
use pure_run::run_inline;
use replay_text::name_digits;
use report_text::{step_lines, summary};
use scenario_toml::made_scenario;
use sha2::{Digest, Sha256};
use std::alloc::Global;
use surw_base::OutOfMemory;

/// The report of the job `make`: the run of the scenario that the number makes, made on this thread, with the digest of
/// the lines of its steps in their place.
pub(crate) fn report_of_make(alloc: Global, number: u64) -> Result<Report, Stop>
    ensures report { IfOk result (λ report. make_answer number (report_answer report)) }
    ensures stopped { IfErr result (IsStopOf (make_answer number)) }
{
    let scenario = made_scenario(alloc, number)?;
    let counts = counts_of(alloc, &scenario, &NO_CHOICE)?;
    let plan = scenario.plan(alloc, &NO_CHOICE, &counts)?;
    let run = run_inline(alloc, &plan)?;
    let steps = step_lines(alloc, &run)?;
    let digest = Sha256::digest(steps.as_slice());
    let mut text = summary(alloc, &run)?;
    push_digest_line(&mut text, digest)?;
    Ok(Report {
        status: status_of(&run),
        text,
        saved: None,
    })
}

// Appends the line of a digest. An error comes only where memory is refused.
fn push_digest_line(text: &mut Vec<u8>, digest: [u8; 32]) -> Result<(), OutOfMemory>
    ensures { IfOk result (λ _. text.new.items ≡ text.old.items ++ digest_line digest) }
{
    text.extend_from_slice(b"journal ")?;
    text.extend_from_slice(&name_digits(digest))?;
    text.push(b'\n')?;
    Ok(())
}
