//! The clock of a run.

ghost use Rattle.std.specs.Prelude.{◌≡◌, ◌≤◌};
ghost use Rattle.fwd_links.specs.Times.{millis_in, moment_after};

use std::rt::Clock;
use std::time::{Duration, Instant, SystemTime};

/// How many whole seconds have passed since 1970, if the system's clock can be read.
pub fn unix_seconds<R: Clock>(rt: &R) -> Option<u64> {
    let now = SystemTime::now(rt).ok()?;
    let passed = now.duration_since(SystemTime::UNIX_EPOCH).ok()?;
    Some(passed.as_secs())
}

/// A span in whole milliseconds, or the greatest number where there are more.
fn millis_in(passed: Duration) -> u64
    ensures { result ≡ millis_in passed }
{
    passed.as_millis().min(u64::MAX as u128) as u64
}

/// The moment a span behind the start, where the greatest so far is this.
fn moment_after(latest: u64, passed: Duration) -> u64
    ensures { result ≡ moment_after latest passed }
{
    latest.max(millis_in(passed))
}

/// Tells how many milliseconds have passed since a start. It never goes back: where the system's
/// clock cannot be read it stands.
#[derive(Drop)]
pub struct RunClock<'a, R: Clock> {
    rt: &'a R,
    start: Option<Instant>,
    /// The greatest moment so far, in milliseconds.
    pub latest: u64,
}

impl<'a, R: Clock> RunClock<'a, R> {
    /// The clock since this start.
    pub fn new(rt: &'a R, start: Option<Instant>) -> Self {
        RunClock {
            rt,
            start,
            latest: 0,
        }
    }

    /// The moment, in milliseconds since the start.
    pub fn moment(&mut self) -> u64
        ensures told { result ≡ self.new.latest }
        ensures onward { self.old.latest ≤ result }
    {
        if let Some(start) = self.start {
            if let Ok(passed) = start.elapsed(self.rt) {
                self.latest = moment_after(self.latest, passed);
            }
        }
        self.latest
    }
}

impl<'a, R: Clock> fwd_environment::Clock for RunClock<'a, R> {
    fn now(&mut self) -> u64 {
        self.moment()
    }
}
