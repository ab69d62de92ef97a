//! When the chunks of an output were begun that are not settled. They lie under the output's lock,
//! so that the age of the oldest is exact with any number of readers and workers. They serve the
//! metrics page alone, so a chunk that cannot be noted for want of memory is admitted all the same.

ghost use Rattle.std.specs.Prelude.{◌≡◌, OnOk, OnErr};
ghost use Rattle.fwd_output.specs.ChunkStarts.{begun_after, begun_at, none_begun, oldest_of, settled_from};

use fwd_chunks::Span;
use std::alloc::{AllocError, Global};
use std::collections::BTreeMap;
use std::marker::Model;

/// When the chunks of an output were begun that are not settled.
#[derive(Drop)]
pub(crate) struct ChunkStarts {
    /// The greatest number of a chunk that was begun. They are counted from 1 on.
    newest: u64,
    /// The moments (milliseconds), by the chunks' numbers.
    moments: BTreeMap<u64, u64>,
}

impl Model for ChunkStarts {
    ghost use Rattle.fwd_output.specs.ChunkStarts.{Beginnings};

    ghost Value = { Beginnings };

    ghost view = { λ b. record { newest = b.newest; moments = b.moments.entries } };
}

impl ChunkStarts {
    /// None was begun.
    pub(crate) fn new(alloc: Global) -> ChunkStarts
        ensures { result ≡ none_begun }
    {
        ChunkStarts {
            newest: 0,
            moments: BTreeMap::new(alloc),
        }
    }

    /// These runs were entered at a moment (milliseconds): it is noted for those chunks that are
    /// new. The only error is out of memory, and then it is not noted for all of them.
    pub(crate) fn enter(&mut self, spans: &[Span], now: u64) -> Result<(), AllocError>
        ensures { OnOk result (self.new ≡ begun_after now self.old spans.now) }
    {
        for span in spans {
            self.begin(span.number, now)?;
        }
        Ok(())
    }

    /// A run of a chunk was entered at a moment (milliseconds), which is noted if that is new. The
    /// only error is out of memory, and then nothing has changed.
    fn begin(&mut self, chunk: u64, now: u64) -> Result<(), AllocError>
        ensures begun { OnOk result (self.new ≡ begun_at now self.old chunk) }
        ensures same { OnErr result (self.new ≡ self.old) }
    {
        if chunk <= self.newest {
            return Ok(());
        }
        if self.moments.insert(chunk, now).is_err() {
            return Err(AllocError);
        }
        self.newest = chunk;
        Ok(())
    }

    /// So many entries of a chunk were settled: all that it has, or none, where it is not the
    /// output's.
    pub(crate) fn settle(&mut self, chunk: u64, entries: u64)
        ensures { self.new ≡ settled_from self.old chunk entries }
    {
        if entries > 0 {
            self.moments.remove(&chunk);
        }
    }

    /// When the oldest of them was begun, in milliseconds.
    pub(crate) fn oldest(&self) -> Option<u64>
        ensures { result ≡ oldest_of self.now.moments }
    {
        match self.moments.first_key_value() {
            None => None,
            Some((_, moment)) => Some(*moment),
        }
    }
}
