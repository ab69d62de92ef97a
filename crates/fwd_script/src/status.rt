ghost use Rattle.std.specs.Prelude.{◌≡◌, OnOk, IfErr};
ghost use Rattle.fwd_script.specs.Statuses.{exit_code, unread_status, refused_status};
ghost use Rattle.fwd_script.specs.declared.status.Status.TheVariants as statuses;

use crate::input::InputError;
use crate::reading::ReadFailed;
use crate::writing::WriteFailed;
use fwd_settings::SettingsFault;
use std::alloc::{AllocError, AllocFailed};
use std::fmt;

/// How a replay ended.
#[derive(Drop)]
pub enum Status {
    /// Each line of the script was answered.
    Done,
    /// The settings were refused, and nothing was written.
    BadSettings(SettingsFault),
    /// The line of this number, counted from 1 over all of the script, is no event. Each line
    /// before it was answered.
    BadLine(u64),
    /// Memory ran out. Nothing was written but answers to the lines before.
    Memory,
    /// A read failed, or the input had no end.
    Input(ReadFailed),
    /// A write or a flush failed.
    Output(WriteFailed),
}

impl Status {
    /// The exit status of a program that ends so.
    pub fn exit_code(&self) -> u8
        ensures { result ≡ exit_code self.now }
    {
        match self {
            Status::Done => 0,
            Status::BadSettings(_) => 1,
            Status::BadLine(_) => 3,
            Status::Memory => 4,
            Status::Input(_) | Status::Output(_) => 5,
        }
    }

    /// How a run ends that would end so, once its writer was flushed: a flush that fails is a
    /// failed write.
    pub fn flushed(self, flush: Result<(), WriteFailed>) -> Status
        ensures ok { OnOk flush (result ≡ self) }
        ensures err { IfErr flush (λ failed. result ≡ statuses.Output failed) }
    {
        match flush {
            Ok(()) => self,
            Err(failed) => Status::Output(failed),
        }
    }
}

impl From<AllocError> for Status {
    ghost from_gives = { λ _ status. status ≡ statuses.Memory };

    fn from(_error: AllocError) -> Status {
        Status::Memory
    }
}

impl<T: Drop> From<AllocFailed<T>> for Status {
    ghost from_gives = { λ _ status. status ≡ statuses.Memory };

    fn from(_error: AllocFailed<T>) -> Status {
        Status::Memory
    }
}

impl From<WriteFailed> for Status {
    ghost from_gives = { λ failed status. status ≡ statuses.Output failed };

    fn from(failed: WriteFailed) -> Status {
        Status::Output(failed)
    }
}

impl From<InputError> for Status {
    ghost from_gives = { λ error status. status ≡ unread_status error };

    fn from(error: InputError) -> Status {
        match error {
            InputError::Memory => Status::Memory,
            InputError::Failed(failed) => Status::Input(failed),
        }
    }
}

impl From<SettingsFault> for Status {
    ghost from_gives = { λ fault status. status ≡ refused_status fault };

    fn from(fault: SettingsFault) -> Status {
        match fault {
            SettingsFault::Memory => Status::Memory,
            fault => Status::BadSettings(fault),
        }
    }
}

/// What is told on standard error, without its line feed: nothing where all is done.
impl fmt::Display for Status {
    ghost use Rattle.std.specs.Prelude.{Some};
    ghost use Rattle.fwd_script.specs.Statuses.{status_text};

    ghost output = { λ status. Some (status_text status) };

    fn fmt<W: fmt::Write>(&self, f: &mut fmt::Formatter<W>) -> fmt::Result {
        match self {
            Status::Done => Ok(()),
            Status::BadSettings(fault) => write!(f, "settings: {fault}"),
            Status::BadLine(number) => write!(f, "line {number}: bad event"),
            Status::Memory => write!(f, "memory"),
            Status::Input(_) => write!(f, "input"),
            Status::Output(_) => write!(f, "output"),
        }
    }
}
