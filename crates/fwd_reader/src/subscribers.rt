//! Which readers are to hear of an output's settled chunks.

use std::alloc::{AllocError, Global};
use std::sync::atomic::{AtomicBool, Ordering};

/// Which readers are to hear of an output's settled chunks: those that it may owe receipts, and
/// those whose sources wait until it has room. A reader enters before it admits, and leaves when it
/// is about to sleep and nothing is owed. So under load this is read and seldom written, and a
/// reader that waits for nothing sleeps on.
#[derive(Drop)]
pub struct Subscribers {
    /// Whether each reader hears, by its number.
    readers: Vec<AtomicBool>,
}

impl Subscribers {
    /// None of so many readers hears. The only error is out of memory.
    pub fn new(alloc: Global, readers: usize) -> Result<Subscribers, AllocError> {
        let mut all = Vec::with_capacity(alloc, readers)?;
        for _ in 0..readers {
            all.push(AtomicBool::new(false))?;
        }
        Ok(Subscribers { readers: all })
    }

    /// Whether there are several readers.
    pub(crate) fn has_several(&self) -> bool {
        self.readers.len() > 1
    }

    /// The reader of this number hears from now on.
    pub(crate) fn enter(&self, reader: usize) {
        if let Some(hears) = self.readers.get(reader) {
            // Most often it does already: then its line of the cache is not taken from others.
            if !hears.load(Ordering::SeqCst) {
                hears.store(true, Ordering::SeqCst);
            }
        }
    }

    /// The reader of this number need not hear any more.
    pub(crate) fn leave(&self, reader: usize) {
        if let Some(hears) = self.readers.get(reader) {
            hears.store(false, Ordering::SeqCst);
        }
    }

    /// Whether the reader of this number hears.
    pub fn hears(&self, reader: usize) -> bool {
        match self.readers.get(reader) {
            Some(hears) => hears.load(Ordering::SeqCst),
            None => false,
        }
    }
}
