//! How many files the process may have open, and how many sources that leaves room for.

ghost use Rattle.std.specs.Prelude.{◌≡◌, ◌≤◌, length};
ghost use Rattle.fwd_loop.specs.Loops.{room_within, workers_in};

use fwd_settings::OutputSettings;
use fwd_turns::MONITORS;
use std::alloc::Global;
use std::rt::Files;
use std::{fs, str};

/// Where Linux tells a process's limits (proc_pid_limits(5)).
const LIMITS: &str = "/proc/self/limits";

/// What the line begins with that tells how many files it may have open.
const NAME: &str = "Max open files";

/// The files that a relay has open beside its sources, monitors, readers and workers: the standard
/// streams, the listeners, and some to spare.
const OWN: u64 = 14;

/// The files of a worker at most: three that it waits with, its link, and one more while it
/// connects to another server.
const WORKER: u64 = 5;

/// The files of a reader: what it waits with, and what wakes it.
const READER: u64 = 2;

/// How many files the process may have open, where the system tells and there is a limit.
pub(crate) fn most_files<R: Files + AllocGlobal>(rt: &R) -> Option<u64> {
    let text = fs::read(rt, LIMITS).ok()?;
    limit_in(str::from_utf8(&text).ok()?)
}

/// The limit that a process's limits tell: the first number behind the line's name.
fn limit_in(text: &str) -> Option<u64> {
    let line = text.lines().find(|line| line.starts_with(NAME))?;
    let soft = line.split_ascii_whitespace().nth(3)?;
    soft.parse().ok()
}

/// How many workers these outputs have.
fn workers_in(outputs: &[OutputSettings]) -> u64
    requires { length outputs.now ≤ 64 }
    ensures { result ≡ workers_in outputs.now }
{
    outputs.iter().map(|output| u64::from(output.workers)).sum()
}

/// How many sources at most so many files leave room for, beside so many readers and the workers of
/// these outputs: one at least.
pub(crate) fn sources_within(files: u64, readers: u16, outputs: &[OutputSettings]) -> u64
    requires { length outputs.now ≤ 64 }
    ensures { result ≡ room_within files readers outputs.now }
{
    let workers = WORKER.saturating_mul(workers_in(outputs));
    let own = (OWN + MONITORS as u64 + READER * u64::from(readers)).saturating_add(workers);
    files.saturating_sub(own).max(1)
}
