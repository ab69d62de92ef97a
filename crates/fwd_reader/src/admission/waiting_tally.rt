//! What waits at an output until it can be taken, of all readers together.

ghost use Rattle.std.specs.Prelude.{◌≡◌};

use fwd_history::Run;
use fwd_peers::{SourcePeer, WaitingPlace};
use std::sync::atomic::{AtomicU64, Ordering};

/// How many sources have a first request that waits at an output, and the bytes of the entries of
/// these requests. They lie outside the output's `total_limit`.
#[derive(Drop)]
pub(crate) struct WaitingTally {
    sources: AtomicU64,
    bytes: AtomicU64,
}

impl WaitingTally {
    /// None waits.
    pub fn new() -> WaitingTally {
        WaitingTally {
            sources: AtomicU64::new(0),
            bytes: AtomicU64::new(0),
        }
    }

    /// A source's first request waits at the output of this number, in line for room or not. It is
    /// counted once, however often it is found to wait.
    pub fn add<J: Run>(&self, source: &mut SourcePeer<J>, output: u16, is_in_line: bool)
        ensures { source.new ≡ source.old }
    {
        let bytes = match source.waiting_place() {
            Some(place) => place.bytes,
            None => self.count(source.asked_bytes() as u64),
        };
        source.wait_at(Some(WaitingPlace {
            output,
            bytes,
            is_in_line,
        }));
    }

    /// A source's first request waits no more: it was taken, or the source goes.
    pub fn remove<J: Run>(&self, source: &mut SourcePeer<J>)
        ensures { source.new ≡ source.old }
    {
        if let Some(place) = source.waiting_place() {
            self.sources.fetch_sub(1, Ordering::SeqCst);
            self.bytes.fetch_sub(place.bytes, Ordering::SeqCst);
            source.wait_at(None);
        }
    }

    /// One more waits, with so many bytes.
    fn count(&self, bytes: u64) -> u64
        ensures { result ≡ bytes }
    {
        self.sources.fetch_add(1, Ordering::SeqCst);
        self.bytes.fetch_add(bytes, Ordering::SeqCst);
        bytes
    }

    /// How many sources have a request that waits.
    pub fn sources(&self) -> u64 {
        self.sources.load(Ordering::SeqCst)
    }

    /// How many bytes the entries of these requests have.
    pub fn bytes(&self) -> u64 {
        self.bytes.load(Ordering::SeqCst)
    }
}
