ghost use Rattle.std.specs.Prelude.{◌≡◌};
ghost use Rattle.surw_cli.specs.Status.{code, status_of};

use fault_text::Fault;

/// How a call of the program ends.
#[derive(Clone, Copy, Debug, PartialEq, Eq)]
pub enum Status {
    /// The job was done; of a run, that it ended and no monitor failed.
    Done,
    /// A run ended and a monitor failed, or it came to a deadlock.
    Failing,
    /// The words ask for no job.
    Words,
    /// A scenario, an order file or a file of draws doesn't have its form, or the profile stopped.
    Form,
    /// A thread made more or fewer selected events than counted.
    WrongCount,
    /// A replay left the saved run.
    Asked,
    /// A saved file doesn't have its form, or is of another scenario.
    SavedForm,
    /// A run came to its most steps.
    StepLimit,
    /// The shelf failed, or has no such file.
    ReadFault,
    /// The shelf failed at the saved file, or the sink at the report.
    WriteFault,
    /// Memory was refused.
    OutOfMemory,
    /// The draws were too few, too many or too large, or no draws name the order and the offsets.
    Draw,
    /// A file is longer than its limit.
    TooLong,
}

impl Status {
    /// The status that a refusal ends with.
    pub(crate) fn of(fault: &Fault) -> Status
        ensures { result ≡ status_of fault.now }
    {
        match fault {
            Fault::Words => Status::Words,
            Fault::Lines { .. } | Fault::Scenario(_) => Status::Form,
            Fault::ProfileStepLimit | Fault::ProfileDeadlock { .. } => Status::Form,
            Fault::Read => Status::ReadFault,
            Fault::Length { .. } | Fault::Large { .. } => Status::Draw,
            Fault::Miscount { .. } | Fault::Offsets { .. } | Fault::Offset { .. } => Status::Draw,
            Fault::TooLong { .. } => Status::TooLong,
            Fault::Replay(_) | Fault::OtherScenario { .. } => Status::SavedForm,
        }
    }

    /// The number that the process ends with, from 0 to 12.
    pub fn code(&self) -> u8
        ensures { result ≡ code self.now }
    {
        match self {
            Status::Done => 0,
            Status::Failing => 1,
            Status::Words => 2,
            Status::Form => 3,
            Status::WrongCount => 4,
            Status::Asked => 5,
            Status::SavedForm => 6,
            Status::StepLimit => 7,
            Status::ReadFault => 8,
            Status::WriteFault => 9,
            Status::OutOfMemory => 10,
            Status::Draw => 11,
            Status::TooLong => 12,
        }
    }
}
