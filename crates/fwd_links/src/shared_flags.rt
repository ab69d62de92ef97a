//! What readers and workers tell each other without a lock.

use std::alloc::{AllocError, Global};
use std::sync::Arc;
use std::sync::atomic::{AtomicBool, AtomicUsize, Ordering};

/// What readers and workers tell each other.
#[derive(Drop)]
struct Flags {
    /// All readers and workers are to end.
    is_stopped: AtomicBool,
    /// The relay was asked to stop: readers read what is under way alone, and close all chunks.
    is_draining: AtomicBool,
    /// How many sources were closed since, before they were read to their end.
    cut: AtomicUsize,
    /// How many workers have given back the memory that they keep in reserve.
    lacking: AtomicUsize,
    /// How many readers read sources, and take memory for what they send.
    reading: AtomicUsize,
    /// To how many readers memory was refused for a source a short while ago: the next ones that
    /// they read may take all that there is.
    tight: AtomicUsize,
}

/// What readers and workers tell each other. Who shares it sees it change.
#[derive(Drop)]
pub struct SharedFlags {
    flags: Arc<Flags>,
}

/// Memory was refused to a reader for a source a short while ago, and the workers know it. It must
/// be spent: by `end_tightness`, which tells them that it is longer ago.
pub struct Tightness(());

impl SharedFlags {
    /// Nobody is to end, nobody lacks memory, and nothing is read. The only error is out of memory.
    pub fn new(alloc: Global) -> Result<SharedFlags, AllocError> {
        let flags = Flags {
            is_stopped: AtomicBool::new(false),
            is_draining: AtomicBool::new(false),
            cut: AtomicUsize::new(0),
            lacking: AtomicUsize::new(0),
            reading: AtomicUsize::new(0),
            tight: AtomicUsize::new(0),
        };
        Ok(SharedFlags {
            flags: Arc::new(alloc, flags)?,
        })
    }

    /// The same, shared. The only error is out of memory.
    pub fn share(&self) -> Result<SharedFlags, AllocError> {
        let flags = Arc::try_clone(&self.flags)?;
        Ok(SharedFlags { flags })
    }

    /// All readers and workers are to end.
    pub fn stop(&self) {
        self.flags.is_stopped.store(true, Ordering::SeqCst);
    }

    /// Whether all readers and workers are to end.
    pub fn is_stopped(&self) -> bool {
        self.flags.is_stopped.load(Ordering::SeqCst)
    }

    /// The relay was asked to stop: from now on it delivers what it holds, and takes nothing new.
    pub fn drain(&self) {
        self.flags.is_draining.store(true, Ordering::SeqCst);
    }

    /// Whether the relay was asked to stop.
    pub fn is_draining(&self) -> bool {
        self.flags.is_draining.load(Ordering::SeqCst)
    }

    /// A source of a relay that was asked to stop is closed before it was read to its end.
    pub fn cut(&self) {
        self.flags.cut.fetch_add(1, Ordering::SeqCst);
    }

    /// How many sources were closed so.
    pub fn cuts(&self) -> usize {
        self.flags.cut.load(Ordering::SeqCst)
    }

    /// A worker is to give back the memory that it keeps in reserve: no reader reads a further
    /// source until it has it again.
    pub(crate) fn lack(&self) {
        self.flags.lacking.fetch_add(1, Ordering::SeqCst);
    }

    /// The worker has memory in reserve again.
    pub(crate) fn have(&self) {
        self.flags.lacking.fetch_sub(1, Ordering::SeqCst);
    }

    /// Whether a worker has given back what it keeps in reserve.
    pub fn is_lacking(&self) -> bool {
        self.flags.lacking.load(Ordering::SeqCst) > 0
    }

    /// A reader is about to read sources, and asks before each of them whether a worker lacks
    /// memory.
    pub fn begin_reading(&self) {
        self.flags.reading.fetch_add(1, Ordering::SeqCst);
    }

    /// That reader reads no source any more.
    pub fn end_reading(&self) {
        self.flags.reading.fetch_sub(1, Ordering::SeqCst);
    }

    /// Memory was refused to a reader for a source a short while ago.
    pub fn begin_tightness(&self) -> Tightness {
        self.flags.tight.fetch_add(1, Ordering::SeqCst);
        Tightness(())
    }

    /// That is longer ago now.
    pub fn end_tightness(&self, tightness: Tightness) {
        let Tightness(()) = tightness;
        self.flags.tight.fetch_sub(1, Ordering::SeqCst);
    }

    /// Whether memory was refused for a source a short while ago.
    pub(crate) fn is_tight(&self) -> bool {
        self.flags.tight.load(Ordering::SeqCst) > 0
    }

    /// Whether any reader reads sources.
    pub(crate) fn is_reading(&self) -> bool {
        self.flags.reading.load(Ordering::SeqCst) > 0
    }
}
