//! How long things take.

use std::rt::Clock;
use std::time::{Duration, Instant};

/// A watch that was started. Where the clock fails it tells the longest time.
#[derive(Clone, Copy)]
pub struct Watch {
    start: Option<Instant>,
}

impl Watch {
    pub fn start<R: Clock>(rt: &R) -> Self {
        Watch {
            start: Instant::now(rt).ok(),
        }
    }

    /// How long ago it was started.
    pub fn took<R: Clock>(self, rt: &R) -> Duration {
        match self.start {
            Some(start) => start.elapsed(rt).unwrap_or(Duration::MAX),
            None => Duration::MAX,
        }
    }
}

/// Prints how long a part took, for each of so many.
pub fn print_part(rt: &impl Print, part: &str, took: Duration, count: u64, of: &str) {
    let tenths = took.as_nanos().saturating_mul(10) / u128::from(count.max(1));
    let whole = tenths / 10;
    let tenth = tenths % 10;
    let _ = println!(rt; "{part} {whole}.{tenth} ns {of}");
}
