//! A clock that is set by hand.

use std::cell::Cell;
use std::io;
use std::io::ErrorKind;
use std::rt::Clock;
use std::time::Duration;

/// The moment 2026-11-25T00:31:07.123Z, in milliseconds since 1970.
pub const START: u64 = 1_795_566_667_123;

/// A clock that is set by hand, in milliseconds since 1970. It cannot be read while it has none.
#[derive(Drop)]
pub struct ManualClock {
    now: Cell<Option<u64>>,
}

impl ManualClock {
    /// A clock at a moment.
    pub fn new(now: Option<u64>) -> ManualClock {
        ManualClock {
            now: Cell::new(now),
        }
    }

    /// It is set to a moment, or cannot be read any more.
    pub fn set(&self, now: Option<u64>) {
        self.now.set(now);
    }
}

impl Clock for ManualClock {
    fn monotonic(&self) -> io::Result<Duration> {
        self.since_1970()
    }

    fn since_1970(&self) -> io::Result<Duration> {
        match self.now.get() {
            Some(millis) => Ok(Duration::from_millis(millis)),
            None => Err(io::Error::from(ErrorKind::Other)),
        }
    }
}
