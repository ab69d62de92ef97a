//! How a run ends.

ghost use Rattle.std.specs.Prelude.{◌≡◌};
ghost use Rattle.fwd_script.specs.Statuses.{refused_status};
ghost use Rattle.fwd_script.specs.declared.status.Status.TheVariants as statuses;
ghost use Rattle.fwd_journal.specs.RunEnds.{ended_by, run_code};
ghost use Rattle.fwd_journal.specs.declared.ending.RunEnd.TheVariants as ends;

use fwd_listeners::Left;
use fwd_monitors::StartFault;
use fwd_script::{Status, WriteFailed};
use fwd_settings::SettingsFault;
use std::alloc::AllocError;
use std::fmt;

/// How a run ended.
#[derive(Drop)]
pub enum RunEnd {
    /// As a check of the settings could end too, or in a failed write, or all is done.
    Ran(Status),
    /// The relay could not start, or not go on.
    Start(StartFault),
    /// It was asked to stop, and this was left in the end.
    Left(Left),
}

impl RunEnd {
    /// The exit status: 4 where the relay could not start, and 6 where something is left.
    pub fn exit_code(&self) -> u8
        ensures { result ≡ run_code self.now }
    {
        match self {
            RunEnd::Ran(status) => status.exit_code(),
            RunEnd::Start(_) => 4,
            RunEnd::Left(_) => 6,
        }
    }
}

impl From<Status> for RunEnd {
    ghost from_gives = { λ status end. end ≡ ends.Ran status };

    fn from(status: Status) -> RunEnd {
        RunEnd::Ran(status)
    }
}

impl From<AllocError> for RunEnd {
    ghost from_gives = { λ _ end. end ≡ ends.Ran statuses.Memory };

    fn from(_error: AllocError) -> RunEnd {
        RunEnd::Ran(Status::Memory)
    }
}

impl From<WriteFailed> for RunEnd {
    ghost from_gives = { λ failed end. end ≡ ends.Ran (statuses.Output failed) };

    fn from(failed: WriteFailed) -> RunEnd {
        RunEnd::Ran(Status::from(failed))
    }
}

impl From<SettingsFault> for RunEnd {
    ghost from_gives = { λ fault end. end ≡ ends.Ran (refused_status fault) };

    fn from(fault: SettingsFault) -> RunEnd {
        RunEnd::Ran(Status::from(fault))
    }
}

impl From<StartFault> for RunEnd {
    ghost from_gives = { λ fault end. end ≡ ended_by fault };

    fn from(fault: StartFault) -> RunEnd {
        match fault {
            StartFault::Memory => RunEnd::Ran(Status::Memory),
            fault => RunEnd::Start(fault),
        }
    }
}

/// What is told on standard error, without its line feed: nothing where all is done.
impl fmt::Display for RunEnd {
    fn fmt<W: fmt::Write>(&self, f: &mut fmt::Formatter<W>) -> fmt::Result {
        match self {
            RunEnd::Ran(status) => write!(f, "{status}"),
            RunEnd::Start(fault) => write!(f, "{fault}"),
            RunEnd::Left(left) => write!(f, "{left}"),
        }
    }
}
