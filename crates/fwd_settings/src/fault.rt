//! Why a text is refused as settings.

ghost use Rattle.std.specs.Prelude.{◌≡◌};
ghost use Rattle.fwd_settings.specs.declared.fault.SettingsFault.TheVariants as faults;

use fwd_base::Text;
use std::alloc::{AllocError, AllocFailed};
use std::fmt;

/// Why settings are refused. A key is written as `relay.listen`, `output[0].match` or
/// `output[0].server[1].address`. The variants have the numbers 0 to 7 in their order; an enum
/// whose variants hold texts may not have explicit ones.
#[derive(Drop)]
pub enum SettingsFault {
    /// Memory ran out.
    Memory,
    /// The file of the settings was not read. Only its caller answers this.
    Unreadable,
    /// The text is no TOML, or no UTF-8.
    NotToml,
    /// The key is required, and it is absent.
    Missing(Text),
    /// The key has a value of another kind.
    WrongKind(Text),
    /// The key's value is out of its range.
    OutOfRange(Text),
    /// There is no such key.
    Unknown(Text),
    /// The key's value is no match pattern.
    BadPattern(Text),
}

impl From<AllocError> for SettingsFault {
    ghost from_gives = { λ _ e. e ≡ faults.Memory };

    fn from(_error: AllocError) -> SettingsFault {
        SettingsFault::Memory
    }
}

impl<T: Drop> From<AllocFailed<T>> for SettingsFault {
    ghost from_gives = { λ _ e. e ≡ faults.Memory };

    fn from(_error: AllocFailed<T>) -> SettingsFault {
        SettingsFault::Memory
    }
}

impl fmt::Display for SettingsFault {
    ghost use Rattle.std.specs.Prelude.{Some};
    ghost use Rattle.fwd_settings.specs.Faults.{fault_text};

    ghost output = { λ fault. Some (fault_text fault) };

    fn fmt<W: fmt::Write>(&self, f: &mut fmt::Formatter<W>) -> fmt::Result {
        match self {
            SettingsFault::Memory => write!(f, "memory"),
            SettingsFault::Unreadable => write!(f, "unreadable"),
            SettingsFault::NotToml => write!(f, "not toml"),
            SettingsFault::Missing(key) => write!(f, "missing {key}"),
            SettingsFault::WrongKind(key) => write!(f, "wrong kind {key}"),
            SettingsFault::OutOfRange(key) => write!(f, "out of range {key}"),
            SettingsFault::Unknown(key) => write!(f, "unknown {key}"),
            SettingsFault::BadPattern(key) => write!(f, "bad pattern {key}"),
        }
    }
}
