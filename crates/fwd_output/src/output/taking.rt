//! How a worker is given a free chunk of an output.

ghost use Rattle.std.specs.Prelude.{◌≡◌, None, option_map, IfOk, IsOk, OnErr, OnOk};
ghost use Rattle.fwd_chunks.specs.Live.{
  live_carried_chunk,
  live_first_closing,
  live_free_chunk,
  live_given,
  live_given_for,
  live_looks,
  live_takes,
};

use super::OutputState;
use fwd_chunks::{Carried, FlushKind, FreeChunk, Wanted};
use std::alloc::{AllocError, Global};

impl OutputState {
    /// Tells of the chunk that a worker would be given at a moment (milliseconds), if there is one.
    /// Nothing is taken, and the greatest moment stays as it was.
    pub fn free_chunk(&self, wanted: Wanted, now: u64) -> Option<FreeChunk>
        ensures { result ≡ option_map live_free_chunk
            (live_given_for (live_looks self.now.buffer now) wanted) }
    {
        self.buffer.free_chunk(wanted, now)
    }

    /// The number of the first open chunk that a flush at a moment (milliseconds) closes, if it closes
    /// any. It stays open, and the greatest moment stays as it was.
    pub fn first_closing(&self, now: u64, kind: FlushKind) -> Option<u64>
        ensures { result
            ≡ option_map (λ c. c.number) (live_first_closing self.now.buffer now kind) }
    {
        self.buffer.first_closing(now, kind)
    }

    /// Gives a worker the free chunk of the least number at a moment (milliseconds), if there is
    /// one. On an error nothing has changed.
    pub fn take(
        &mut self,
        alloc: Global,
        worker: u16,
        now: u64,
    ) -> Result<Option<Carried>, AllocError>
        ensures given { IfOk result (λ carried. carried ≡ option_map
            (live_carried_chunk self.old.buffer) (live_given (live_looks self.old.buffer now))) }
        ensures ok { OnOk result (self.new ≡ record self.old {
          buffer = live_takes self.old.buffer worker Wanted.Any now;
        }) }
        ensures err { OnErr result (self.new ≡ self.old) }

        // Where none is free, no memory is taken.
        ensures none { live_given (live_looks self.old.buffer now) ≡ None → IsOk result }
    {
        self.take_wanted(alloc, worker, Wanted::Any, now)
    }

    /// As `take`, but with the chunk of the least number that is free for what the worker wants.
    pub fn take_wanted(
        &mut self,
        alloc: Global,
        worker: u16,
        wanted: Wanted,
        now: u64,
    ) -> Result<Option<Carried>, AllocError>
        ensures given { IfOk result (λ carried. carried ≡ option_map
            (live_carried_chunk self.old.buffer)
            (live_given_for (live_looks self.old.buffer now) wanted)) }
        ensures ok { OnOk result (self.new ≡ record self.old {
          buffer = live_takes self.old.buffer worker wanted now;
        }) }
        ensures err { OnErr result (self.new ≡ self.old) }

        // Where none is free, no memory is taken.
        ensures none { live_given_for (live_looks self.old.buffer now) wanted ≡ None
            → IsOk result }
    {
        self.buffer.take_wanted(alloc, worker, wanted, now)
    }
}
