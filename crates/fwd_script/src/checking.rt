//! Whether settings are good.

ghost use Rattle.std.specs.Prelude.{◌≡◌, ◌≢◌, ℕ, List, true, Err, IfOk, IfErr, IfSome, MatchResult};
ghost use Rattle.std.specs.String.{string_bytes};
ghost use Rattle.fwd_settings.specs.Ranges.{in_range};
ghost use Rattle.fwd_settings.specs.Whole.{settings_of};
ghost use Rattle.fwd_script.specs.Reads.{ReadsSome};
ghost use Rattle.fwd_script.specs.Checks.{Checks, TellsGood, good_line, verdict_on, unread};

use crate::input::{InputError, read_input};
use crate::output::write_all;
use crate::status::Status;
use crate::writing::flush;
use fwd_settings::{Settings, SettingsFault, accepted_is_in_range, read_settings};
use std::alloc::{AllocError, Global};
use std::fs;
use std::io::{Read, Write};
use std::rt::Files;

/// What is wrong with settings that were not read to their end.
impl From<InputError> for SettingsFault {
    ghost from_gives = { λ error fault. fault ≡ unread error };

    fn from(error: InputError) -> SettingsFault {
        match error {
            InputError::Memory => SettingsFault::Memory,
            InputError::Failed(_) => SettingsFault::Unreadable,
        }
    }
}

/// The settings in what was read, which are in their ranges, or their text's first fault: what was
/// not read to its end is `Unreadable`. `Memory` is out of memory, while it was read or later. It
/// judges what was read and not the reader: a contract over a reader would allow a body that calls
/// every text unreadable.
pub fn settings_in(
    alloc: Global,
    read: Result<Vec<u8>, InputError>,
) -> Result<Settings, SettingsFault>
    ensures range { IfOk result (λ settings. in_range settings ≡ true) }
    ensures text { IfOk read (λ text. result ≢ Err SettingsFault.Memory
        → result ≡ settings_of text.items) }
    ensures unread { IfErr read (λ error. result ≡ Err (unread error)) }
{
    let text = read?;
    accepted_is_in_range(); // for the proof
    read_settings(alloc, text.as_slice())
}

/// The settings that were found, or how a check ends that found a fault.
fn judged(found: Result<Settings, SettingsFault>) -> Result<Settings, Status>
    ensures { result ≡ verdict_on found }
{
    Ok(found?)
}

/// What is told of good settings, with its line feed.
fn print_good(alloc: Global, settings: &Settings) -> Result<String, AllocError>
    ensures { IfOk result (λ text. string_bytes text ≡ good_line settings.now) }
{
    let outputs = settings.outputs.len();
    format!(in alloc; "settings are good, outputs: {outputs}\n")
}

/// Writes what is told of good settings.
fn write_good<W: Write>(alloc: Global, settings: &Settings, writer: &mut W) -> Result<(), Status>
    ensures { MatchResult result
        (λ _. TellsGood Status.Done settings.now (W.contents writer.old) (W.contents writer.new))
        (λ status. TellsGood status settings.now (W.contents writer.old) (W.contents writer.new)) }
{
    let text = print_good(alloc, settings)?;
    Ok(write_all(writer, text.as_bytes())?)
}

/// Writes what is told of good settings, and flushes the writer.
fn tell_good<W: Write>(alloc: Global, settings: &Settings, writer: &mut W) -> Status
    ensures { TellsGood result settings.now (W.contents writer.old) (W.contents writer.new) }
{
    let status = match write_good(alloc, settings, writer) {
        Ok(()) => Status::Done,
        Err(status) => status,
    };
    status.flushed(flush(writer))
}

/// Checks the settings that the reader gives: writes `settings are good, outputs: N` and a line
/// feed where they are good, and else answers their first fault. A read that failed, or 2^32
/// reads without an end, is `BadSettings(Unreadable)`, a failed write or flush `Output`, and
/// behind it a front of the line was written. `Memory` has written nothing.
pub fn check<R: Read, W: Write>(alloc: Global, reader: &mut R, writer: &mut W) -> Status
    ensures checks { (text : List ℕ) × IfSome (R.remaining reader.old) (λ left. text ≡ left)
        × Checks result text (W.contents writer.old) (W.contents writer.new) }
    ensures memory { result ≡ Status.Memory
        → ReadsSome (R.remaining reader.old) (R.remaining reader.new) }
{
    match judged(settings_in(alloc, read_input(alloc, reader))) {
        Ok(settings) => tell_good(alloc, &settings, writer),
        Err(status) => status,
    }
}

/// Checks the settings in a file, as `check` does. A file that cannot be opened is
/// `BadSettings(Unreadable)`.
pub fn check_file<F: Files, W: Write>(
    alloc: Global,
    files: &F,
    path: &str,
    writer: &mut W,
) -> Status
    ensures { (text : List ℕ)
        × Checks result text (W.contents writer.old) (W.contents writer.new) }
{
    match fs::open(files, path) {
        Ok(mut file) => check(alloc, &mut file, writer),
        Err(_) => Status::BadSettings(SettingsFault::Unreadable),
    }
}
