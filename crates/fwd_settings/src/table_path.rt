//! The tables of the settings, and how their keys are written.

ghost use Rattle.std.specs.Prelude.{◌≡◌, ◌≢◌, IfOk};
ghost use Rattle.fwd_settings.specs.Faults.{fault_with, key_under, own_key};

use crate::fault::SettingsFault;
use fwd_base::Text;
use std::alloc::{AllocError, Global};
use std::fmt;

/// A table of the settings.
#[derive(Clone, Copy)]
pub enum TablePath {
    /// The whole text.
    Root,
    /// The table `relay`.
    Relay,
    /// The user of this number, from 0.
    User(usize),
    /// The output of this number, from 0.
    Output(usize),
    /// The server of these numbers, from 0: its output's and its own.
    Server(usize, usize),
}

/// What is wrong with the value under a key.
#[derive(Clone, Copy)]
pub enum Flaw {
    /// There is none, and the key is required.
    Missing,
    /// It is of another kind.
    WrongKind,
    /// It is out of its range.
    OutOfRange,
    /// It is no match pattern.
    BadPattern,
}

/// The key of the table itself; of the root, no text.
impl fmt::Display for TablePath {
    ghost use Rattle.std.specs.Prelude.{Some};
    ghost use Rattle.fwd_settings.specs.Faults.{own_key};

    ghost output = { λ place. Some (own_key place) };

    fn fmt<W: fmt::Write>(&self, f: &mut fmt::Formatter<W>) -> fmt::Result {
        match self {
            TablePath::Root => Ok(()),
            TablePath::Relay => write!(f, "relay"),
            TablePath::User(user) => write!(f, "relay.user[{user}]"),
            TablePath::Output(output) => write!(f, "output[{output}]"),
            TablePath::Server(output, server) => write!(f, "output[{output}].server[{server}]"),
        }
    }
}

impl TablePath {
    /// The key of the table itself.
    fn own_key(self, alloc: Global) -> Result<Text, AllocError>
        ensures { IfOk result (λ key. key ≡ own_key self) }
    {
        let text = format!(in alloc; "{self}")?;
        Ok(Text::from_string(text))
    }

    /// The key of a name in the table.
    #[tactic(auto, using(crate::proofs::KeyLemmas::key_inside))]
    pub fn key(self, alloc: Global, name: &str) -> Result<Text, AllocError>
        ensures { IfOk result (λ key. key ≡ key_under self name.now) }
    {
        match self {
            TablePath::Root => Text::from_str(alloc, name),
            place => {
                let text = format!(in alloc; "{place}.{name}")?;
                Ok(Text::from_string(text))
            }
        }
    }

    /// The fault of a name in the table.
    pub fn fault(self, alloc: Global, name: &str, flaw: Flaw) -> SettingsFault
        ensures { result ≢ SettingsFault.Memory
            → result ≡ fault_with flaw (key_under self name.now) }
    {
        match self.key(alloc, name) {
            Ok(key) => flaw.at(key),
            Err(error) => SettingsFault::from(error),
        }
    }

    /// The fault of the table itself.
    pub fn own_fault(self, alloc: Global, flaw: Flaw) -> SettingsFault
        ensures { result ≢ SettingsFault.Memory → result ≡ fault_with flaw (own_key self) }
    {
        match self.own_key(alloc) {
            Ok(key) => flaw.at(key),
            Err(error) => SettingsFault::from(error),
        }
    }
}

impl Flaw {
    /// The fault of a key with this flaw.
    fn at(self, key: Text) -> SettingsFault
        ensures { result ≡ fault_with self key }
    {
        match self {
            Flaw::Missing => SettingsFault::Missing(key),
            Flaw::WrongKind => SettingsFault::WrongKind(key),
            Flaw::OutOfRange => SettingsFault::OutOfRange(key),
            Flaw::BadPattern => SettingsFault::BadPattern(key),
        }
    }
}
