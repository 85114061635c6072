ghost use Rattle.std.specs.Prelude.{◌≡◌};
ghost use Rattle.surw_cli.specs.Stop.{stop_of_fetch};

use command_words::WordFault;
use draw_split::{JoinFault, SplitFault};
use fault_text::Fault;
use order_text::FileFault;
use pure_run::ProfileFault;
use replay_text::ReplayFault;
use scenario_toml::ScenarioFault;
use surw_base::OutOfMemory;
use surw_io::FetchFault;

/// Why a job has no report.
#[derive(Debug, Drop)]
pub(crate) enum Stop {
    /// It was refused, for this cause.
    Refused(Fault),
    /// Memory was refused.
    OutOfMemory,
}

impl Stop {
    /// Why a file of at most `limit` bytes wasn't fetched.
    pub(crate) fn of_fetch(fault: FetchFault, limit: u32) -> Stop
        ensures { result ≡ stop_of_fetch limit fault }
    {
        match fault {
            FetchFault::Failed => Stop::Refused(Fault::Read),
            FetchFault::TooLong { .. } => Stop::Refused(Fault::TooLong { limit }),
            FetchFault::OutOfMemory => Stop::OutOfMemory,
        }
    }
}

impl From<WordFault> for Stop {
    ghost use Rattle.std.specs.Prelude.{◌≡◌};
    ghost use Rattle.surw_cli.specs.Stop.{stop_of_words};

    ghost from_gives = { λ fault stop. stop ≡ stop_of_words fault };

    fn from(fault: WordFault) -> Self {
        match fault {
            WordFault::Form => Stop::Refused(Fault::Words),
            WordFault::OutOfMemory => Stop::OutOfMemory,
        }
    }
}

impl From<FileFault> for Stop {
    ghost use Rattle.std.specs.Prelude.{◌≡◌};
    ghost use Rattle.surw_cli.specs.Stop.{stop_of_file};

    ghost from_gives = { λ fault stop. stop ≡ stop_of_file fault };

    fn from(fault: FileFault) -> Self {
        match fault {
            FileFault::Lines { number } => Stop::Refused(Fault::Lines { number }),
            FileFault::OutOfMemory => Stop::OutOfMemory,
        }
    }
}

impl From<ScenarioFault> for Stop {
    ghost use Rattle.std.specs.Prelude.{◌≡◌};
    ghost use Rattle.surw_cli.specs.Stop.{stop_of_scenario};

    ghost from_gives = { λ fault stop. stop ≡ stop_of_scenario fault };

    fn from(fault: ScenarioFault) -> Self {
        match fault {
            ScenarioFault::OutOfMemory => Stop::OutOfMemory,
            fault => Stop::Refused(Fault::Scenario(fault)),
        }
    }
}

impl From<ProfileFault> for Stop {
    ghost use Rattle.std.specs.Prelude.{◌≡◌};
    ghost use Rattle.surw_cli.specs.Stop.{stop_of_profile};

    ghost from_gives = { λ fault stop. stop ≡ stop_of_profile fault };

    fn from(fault: ProfileFault) -> Self {
        match fault {
            ProfileFault::StepLimit => Stop::Refused(Fault::ProfileStepLimit),
            ProfileFault::Deadlock { step } => Stop::Refused(Fault::ProfileDeadlock { step }),
            ProfileFault::OutOfMemory => Stop::OutOfMemory,
        }
    }
}

impl From<ReplayFault> for Stop {
    ghost use Rattle.std.specs.Prelude.{◌≡◌};
    ghost use Rattle.surw_cli.specs.Stop.{stop_of_replay};

    ghost from_gives = { λ fault stop. stop ≡ stop_of_replay fault };

    fn from(fault: ReplayFault) -> Self {
        match fault {
            ReplayFault::OutOfMemory => Stop::OutOfMemory,
            fault => Stop::Refused(Fault::Replay(fault)),
        }
    }
}

impl From<SplitFault> for Stop {
    ghost use Rattle.std.specs.Prelude.{◌≡◌};
    ghost use Rattle.surw_cli.specs.Stop.{stop_of_split};

    ghost from_gives = { λ fault stop. stop ≡ stop_of_split fault };

    fn from(fault: SplitFault) -> Self {
        match fault {
            SplitFault::Length { kept, needed } => Stop::Refused(Fault::Length { kept, needed }),
            SplitFault::Large { place, kept, below } => {
                Stop::Refused(Fault::Large { place, kept, below })
            }
            SplitFault::OutOfMemory => Stop::OutOfMemory,
        }
    }
}

impl From<JoinFault> for Stop {
    ghost use Rattle.std.specs.Prelude.{◌≡◌};
    ghost use Rattle.surw_cli.specs.Stop.{stop_of_join};

    ghost from_gives = { λ fault stop. stop ≡ stop_of_join fault };

    fn from(fault: JoinFault) -> Self {
        match fault {
            JoinFault::Miscount {
                thread,
                counted,
                seen,
            } => Stop::Refused(Fault::Miscount {
                thread,
                counted,
                seen,
            }),
            JoinFault::Offsets {
                thread,
                counted,
                seen,
            } => Stop::Refused(Fault::Offsets {
                thread,
                counted,
                seen,
            }),
            JoinFault::Offset {
                thread,
                place,
                kept,
                below,
            } => Stop::Refused(Fault::Offset {
                thread,
                place,
                kept,
                below,
            }),
            JoinFault::OutOfMemory => Stop::OutOfMemory,
        }
    }
}

impl From<OutOfMemory> for Stop {
    ghost use Rattle.std.specs.Prelude.{◌≡◌};
    ghost use Rattle.surw_cli.specs.declared.stop.Stop.TheVariants.{OutOfMemory};

    ghost from_gives = { λ _ stop. stop ≡ OutOfMemory };

    fn from(_refused: OutOfMemory) -> Self {
        Stop::OutOfMemory
    }
}
