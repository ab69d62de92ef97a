//! The file of the settings.

ghost use Rattle.std.specs.Prelude.{◌≡◌, ◌⊎◌, ℕ, List, true, IfOk};
ghost use Rattle.fwd_settings.specs.Ranges.{in_range};
ghost use Rattle.fwd_check.specs.Found.{Found};

use fwd_settings::{Settings, SettingsFault, accepted_is_in_range, read_settings};
use std::alloc::Global;
use std::io::ErrorKind;
use std::rt::Files;
use std::{fs, io};
use toml::Table;

/// A file of settings, which was read once: so it may be a pipe.
#[derive(Drop)]
pub struct SettingsFile<'a> {
    pub(crate) path: &'a str,
    /// Its text, or what the system says of it.
    pub(crate) text: io::Result<Vec<u8>>,
}

/// How settings are refused whose file was not read.
fn unread(error: &io::Error) -> SettingsFault
    ensures { (result ≡ SettingsFault.Memory) ⊎ (result ≡ SettingsFault.Unreadable) }
{
    if error.kind() == ErrorKind::OutOfMemory {
        SettingsFault::Memory
    } else {
        SettingsFault::Unreadable
    }
}

impl<'a> SettingsFile<'a> {
    /// Reads the file of this path.
    pub fn read<R: Files + AllocGlobal>(rt: &R, path: &'a str) -> SettingsFile<'a> {
        let text = fs::read(rt, path);
        SettingsFile { path, text }
    }

    /// The settings in it. A file that was not read is `Unreadable`, or `Memory`.
    pub fn settings(&self, alloc: Global) -> Result<Settings, SettingsFault>
        ensures range { IfOk result (λ settings. in_range settings ≡ true) }
        ensures found { (text : List ℕ) × Found result text }
    {
        match &self.text {
            Ok(text) => {
                accepted_is_in_range(); // for the proof
                read_settings(alloc, text.as_slice())
            }
            Err(error) => Err(unread(error)),
        }
    }

    /// Its text as a document, if it is one.
    pub(crate) fn document(&self, alloc: Global) -> Option<Table> {
        match &self.text {
            Ok(text) => toml::table_from_slice(alloc, text.as_slice()).ok(),
            Err(_) => None,
        }
    }
}
