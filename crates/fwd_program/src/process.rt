//! What Linux tells of the process, in the files of proc_pid(5). What cannot be read is left out.

use fwd_monitor::ProcessFigures;
use std::alloc::Global;
use std::rt::Files;
use std::{fs, str};

/// The process's files.
const STATM: &str = "/proc/self/statm";

const STAT: &str = "/proc/self/stat";

const LIMITS: &str = "/proc/self/limits";

const OPEN_FILES: &str = "/proc/self/fd";

/// The system's file that tells when it started. The systemd unit hides it.
const SYSTEM: &str = "/proc/stat";

/// The bytes of a page of memory, on x86-64.
const PAGE: u64 = 4_096;

/// The text of a file, if it can be read.
fn text_of<R: Files + AllocGlobal>(rt: &R, path: &str) -> Option<String> {
    String::from_utf8(fs::read(rt, path).ok()?).ok()
}

/// The number at a place among the words of a text.
fn number_at(text: &str, place: usize) -> Option<u64> {
    text.split_ascii_whitespace().nth(place)?.parse().ok()
}

/// The rest of the line that begins so.
fn line_behind<'a>(text: &'a str, front: &str) -> Option<&'a str> {
    text.lines().find_map(|line| line.strip_prefix(front))
}

/// How many files the process has open, without the folder that is read for that.
fn open_files<R: Files + AllocGlobal>(rt: &R) -> Option<u64> {
    let entries = fs::read_dir(&rt, OPEN_FILES).ok()?;
    let count = entries.count() as u64;
    Some(count.saturating_sub(1))
}

/// What the system tells of the process.
pub(crate) fn process_figures<R: Files + AllocGlobal>(rt: &R) -> ProcessFigures {
    let mut figures = ProcessFigures::UNKNOWN;
    if let Some(text) = text_of(rt, STATM) {
        figures.resident = number_at(text.as_str(), 1).map(|pages| pages.saturating_mul(PAGE));
    }
    figures.open_files = open_files(rt);
    if let Some(text) = text_of(rt, LIMITS) {
        let line = line_behind(text.as_str(), "Max open files");
        figures.most_files = line.and_then(|line| number_at(line, 0));
    }
    if let Some(text) = text_of(rt, STAT) {
        figures.processor = processor_time(text.as_str());
        figures.start = start_of(rt, text.as_str());
    }
    figures
}

/// The words of a process's state behind its name, which may have blanks.
fn behind_name(stat: &str) -> Option<&str> {
    let (_, words) = stat.rsplit_once(')')?;
    Some(words)
}

/// The processor's time that the process took, in hundredths of a second, by its state.
fn processor_time(stat: &str) -> Option<u64> {
    let words = behind_name(stat)?;
    let (own, system) = (number_at(words, 11)?, number_at(words, 12)?);
    Some(own.saturating_add(system))
}

/// When the process started, in hundredths of a second since 1970, by its state.
fn start_of<R: Files + AllocGlobal>(rt: &R, stat: &str) -> Option<u64> {
    let since = number_at(behind_name(stat)?, 19)?;
    let text = text_of(rt, SYSTEM)?;
    let began = number_at(line_behind(text.as_str(), "btime ")?, 0)?;
    Some(began.saturating_mul(100).saturating_add(since))
}
