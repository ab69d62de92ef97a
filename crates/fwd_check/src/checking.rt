//! A check of the settings in a file, and why it refuses them or what it advises.

ghost use Rattle.std.specs.Prelude.{ℕ, List};
ghost use Rattle.fwd_script.specs.Checks.{Checks};

use crate::causes::say_refused;
use crate::cautions::say_cautions;
use crate::file::SettingsFile;
use fwd_script::{Status, check};
use fwd_settings::SettingsFault;
use std::io::{ErrorKind, Write};
use std::rt::Files;

/// Says why the settings in a file are refused, or what is foolish in them.
fn say_of_file<R: AllocGlobal, E: Write>(rt: &R, file: &SettingsFile<'_>, errors: &mut E) {
    let alloc = rt.alloc();
    match file.settings(alloc) {
        Ok(settings) => say_cautions(alloc, file, &settings, errors),
        Err(fault) => say_refused(alloc, file, &fault, errors),
    }
}

/// Checks the settings in a file, as `fwd_script::check` does of a text, and says before why they
/// are refused, or what is lawful and foolish in them. A file that cannot be read is
/// `BadSettings(Unreadable)`, or `Memory`.
pub fn check_said<R: Files + AllocGlobal, W: Write, E: Write>(
    rt: &R,
    path: &str,
    output: &mut W,
    errors: &mut E,
) -> Status
    ensures { (text : List ℕ)
        × Checks result text (W.contents output.old) (W.contents output.new) }
{
    let file = SettingsFile::read(rt, path);
    say_of_file(rt, &file, errors);
    match &file.text {
        Ok(text) => {
            let mut reader = text.as_slice();
            check(rt.alloc(), &mut reader, output)
        }
        Err(error) if error.kind() == ErrorKind::OutOfMemory => Status::Memory,
        Err(_) => Status::BadSettings(SettingsFault::Unreadable),
    }
}
