//! How many entries the chunks of an output have that are not settled, of requests that asked for no
//! acknowledgement: nobody sends them again. They lie under the output's lock. They are told where a
//! relay that was asked to stop leaves entries, so a request that cannot be noted for want of memory
//! is admitted all the same, and is not told then.

use fwd_chunks::Span;
use fwd_modes::Batch;
use std::alloc::Global;
use std::collections::BTreeMap;

/// Those entries, in numbers, by the chunks' numbers.
#[derive(Drop)]
pub(crate) struct UnaskedEntries {
    chunks: BTreeMap<u64, u64>,
}

impl UnaskedEntries {
    /// There are none.
    pub(crate) fn new(alloc: Global) -> UnaskedEntries {
        UnaskedEntries {
            chunks: BTreeMap::new(alloc),
        }
    }

    /// A request was admitted, of which these runs went to chunks.
    pub(crate) fn enter(&mut self, batch: &Batch, spans: &[Span]) {
        if batch.chunk().is_some() {
            return;
        }
        for span in spans {
            self.add(span.number, span.count);
        }
    }

    /// A chunk has so many more.
    fn add(&mut self, chunk: u64, entries: u64) {
        if let Some(held) = self.chunks.get_mut(&chunk) {
            *held = held.saturating_add(entries);
            return;
        }
        let _ = self.chunks.insert(chunk, entries);
    }

    /// So many entries of a chunk were settled: all that it has, or none, where it is not the
    /// output's.
    pub(crate) fn settle(&mut self, chunk: u64, entries: u64) {
        if entries > 0 {
            self.chunks.remove(&chunk);
        }
    }

    /// How many they are in all.
    pub(crate) fn count(&self) -> u64 {
        let mut count: u64 = 0;
        for (_, entries) in self.chunks.iter() {
            count = count.saturating_add(*entries);
        }
        count
    }
}
