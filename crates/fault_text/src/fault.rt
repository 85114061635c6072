ghost use Rattle.std.specs.Prelude.{◌≡◌, OnOk, OnErr};
ghost use Rattle.surw_io.specs.Cause.{HasCause};
ghost use Rattle.surw_io.specs.Content.{with_end, HoldsPrefix};
ghost use Rattle.fault_text.specs.FaultText.{fault_text};

use crate::item::Item;
use crate::line::put_line;
use crate::replay_line::put_replay_line;
use crate::scenario_line::put_scenario_line;
use replay_text::{ReplayFault, name_digits};
use scenario_toml::ScenarioFault;
use surw_base::ThreadNo;
use surw_io::{Failed, Sink};

/// Why a command line is refused.
#[derive(Debug, Drop)]
pub enum Fault {
    /// The words ask for no job.
    Words,
    /// The file's line of this number, from 1, is the first that isn't as asked.
    Lines {
        number: u64,
    },
    /// The shelf failed, or has no such file.
    Read,
    /// There are `kept` draws, where the counts ask for `needed`.
    Length {
        kept: u64,
        needed: u64,
    },
    /// The draw at `place`, from 0, is `kept` and not below `below`.
    Large {
        place: u32,
        kept: u64,
        below: u64,
    },
    /// The thread is counted `counted` times, and the order holds it `seen` times.
    Miscount {
        thread: ThreadNo,
        counted: u32,
        seen: u32,
    },
    /// The thread is counted `counted` times, and has `seen` offsets.
    Offsets {
        thread: ThreadNo,
        counted: u32,
        seen: u32,
    },
    /// The thread's offset at `place`, from 0, is `kept` and not below `below`.
    Offset {
        thread: ThreadNo,
        place: u32,
        kept: u32,
        below: u32,
    },
    /// The file has more than `limit` bytes.
    TooLong {
        limit: u32,
    },
    /// The file is no scenario, for this cause.
    Scenario(ScenarioFault),
    /// The run of the profile has as many steps as the scenario allows.
    ProfileStepLimit,
    /// No thread of the profile's run can go on after `step` steps.
    ProfileDeadlock {
        step: u32,
    },
    /// The file is no saved run, for this cause.
    Replay(ReplayFault),
    /// The saved run is of the scenario named `kept`, where that of the file is `needed`.
    OtherScenario {
        kept: [u8; 32],
        needed: [u8; 32],
    },
}

const WORDS: &[u8] =
    b"fault words\nusage: surw JOB NAME [SAVED] [--strategy S] [--seed N] [--depth N] [--save PATH]";

impl Fault {
    /// Writes the fault's line. It takes no memory. After `Failed`, which comes only where the sink's faults
    /// rose, a prefix of the line was taken.
    pub fn put<O: Sink>(&self, out: &mut O) -> Result<(), Failed>
        ensures all { OnOk result (O.taken out.new ≡ with_end (O.taken out.old) (fault_text self.now)) }
        ensures prefix { OnErr result (HoldsPrefix (O.taken out.old) (fault_text self.now) (O.taken out.new)) }
        ensures cause { HasCause (O.faults out.old) (O.faults out.new) result ⊥ }
    {
        match self {
            Fault::Words => put_line(out, WORDS, &[]),
            Fault::Lines { number } => put_line(out, b"fault lines", &[Item::Number(*number)]),
            Fault::Read => put_line(out, b"fault read", &[]),
            Fault::Length { kept, needed } => put_line(
                out,
                b"fault length",
                &[Item::Number(*kept), Item::Number(*needed)],
            ),
            Fault::Large { place, kept, below } => put_line(
                out,
                b"fault large",
                &[
                    Item::Number(u64::from(*place)),
                    Item::Number(*kept),
                    Item::Number(*below),
                ],
            ),
            Fault::Miscount {
                thread,
                counted,
                seen,
            } => put_line(
                out,
                b"fault miscount",
                &[
                    Item::Number(u64::from(thread.get())),
                    Item::Number(u64::from(*counted)),
                    Item::Number(u64::from(*seen)),
                ],
            ),
            Fault::Offsets {
                thread,
                counted,
                seen,
            } => put_line(
                out,
                b"fault offsets",
                &[
                    Item::Number(u64::from(thread.get())),
                    Item::Number(u64::from(*counted)),
                    Item::Number(u64::from(*seen)),
                ],
            ),
            Fault::Offset {
                thread,
                place,
                kept,
                below,
            } => put_line(
                out,
                b"fault offset",
                &[
                    Item::Number(u64::from(thread.get())),
                    Item::Number(u64::from(*place)),
                    Item::Number(u64::from(*kept)),
                    Item::Number(u64::from(*below)),
                ],
            ),
            Fault::TooLong { limit } => put_line(
                out,
                b"fault too_long",
                &[Item::Number(u64::from(*limit))],
            ),
            Fault::Scenario(fault) => put_scenario_line(fault, out),
            Fault::ProfileStepLimit => put_line(out, b"fault profile step_limit", &[]),
            Fault::ProfileDeadlock { step } => put_line(
                out,
                b"fault profile deadlock",
                &[Item::Number(u64::from(*step))],
            ),
            Fault::Replay(fault) => put_replay_line(fault, out),
            Fault::OtherScenario { kept, needed } => put_line(
                out,
                b"fault replay other_scenario",
                &[
                    Item::Text(&name_digits(*kept)),
                    Item::Text(&name_digits(*needed)),
                ],
            ),
        }
    }
}
