//! When an output is told to be full, and when to have room.

use std::sync::atomic::{AtomicBool, AtomicU64, Ordering};

/// How long nobody waits at an output that was full before it is told to have room, in
/// milliseconds.
const QUIET: u64 = 1_000;

/// What there is to tell of an output that sources wait at.
#[derive(Clone, Copy)]
pub(crate) enum FullNews {
    /// It is full, and so many wait for room.
    Full(usize),
    /// None has waited for a while.
    Room,
}

/// What was told of an output, by any of its readers.
#[derive(Drop)]
pub(crate) struct FullReport {
    /// It was told to be full.
    is_full: AtomicBool,
    /// When sources were last seen to wait, in milliseconds.
    seen: AtomicU64,
}

impl FullReport {
    /// Nothing was told.
    pub fn new() -> FullReport {
        FullReport {
            is_full: AtomicBool::new(false),
            seen: AtomicU64::new(0),
        }
    }

    /// What there is to tell at a moment (milliseconds), where so many sources of a reader wait.
    pub fn news(&self, sources: usize, now: u64) -> Option<FullNews> {
        if sources > 0 {
            self.seen.store(now, Ordering::SeqCst);
            if self.is_full.swap(true, Ordering::SeqCst) {
                return None;
            }
            return Some(FullNews::Full(sources));
        }
        if !self.is_full.load(Ordering::SeqCst) {
            return None;
        }
        if now.saturating_sub(self.seen.load(Ordering::SeqCst)) < QUIET {
            return None;
        }
        if self.is_full.swap(false, Ordering::SeqCst) {
            Some(FullNews::Room)
        } else {
            None
        }
    }
}
