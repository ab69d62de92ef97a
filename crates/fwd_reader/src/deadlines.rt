//! How long connections may take to show what they are.

use std::alloc::{AllocError, AllocFailed, Global};
use std::collections::VecDeque;

/// A connection that came a while ago, and has yet to show what it is.
#[derive(Clone, Copy)]
pub(crate) struct Unidentified {
    /// Its key.
    pub key: usize,
    /// When it came, in milliseconds.
    pub came: u64,
}

/// Connections that have so long to show what they are, in the order in which they came.
#[derive(Drop)]
pub(crate) struct Deadlines {
    /// In milliseconds.
    limit: u64,
    unidentified: VecDeque<Unidentified>,
}

impl Deadlines {
    /// No connections, which will have so long (milliseconds).
    pub fn new(alloc: Global, limit: u64) -> Deadlines {
        Deadlines {
            limit,
            unidentified: VecDeque::new(alloc),
        }
    }

    /// How many they are.
    pub fn len(&self) -> usize {
        self.unidentified.len()
    }

    /// A connection came. The only error is out of memory.
    pub fn add(&mut self, unidentified: Unidentified) -> Result<(), AllocError> {
        match self.unidentified.push_back(unidentified) {
            Ok(()) => Ok(()),
            Err(AllocFailed { value: _ }) => Err(AllocError),
        }
    }

    /// The next connection whose time is over by a moment (milliseconds), if there is one. It may
    /// be gone, or have shown what it is.
    pub fn next(&mut self, now: u64) -> Option<Unidentified> {
        let first = *self.unidentified.front()?;
        if now.saturating_sub(first.came) < self.limit {
            return None;
        }
        self.unidentified.pop_front()
    }
}
