//! The chunks that are not acknowledged.

ghost use Rattle.std.specs.Prelude.{
  ◌≡◌,
  ◌≤◌,
  ◌<◌,
  [],
  ◌∷◌,
  ◌++◌,
  length,
  map,
  remove,
  slice_get,
  Some,
  option_map,
  IfOk,
};
ghost use Rattle.fwd_session.specs.History.{first_in};
ghost use Rattle.fwd_session.specs.Flights.{flight_chunks};

use crate::limits::WINDOW_LIMIT;
use arrayvec::ArrayVec;
use fwd_chunks::Carried;
use std::alloc::{AllocError, Global};
use std::marker::Model;

/// The chunks of a session that are not acknowledged, in the order of their loads, and since when
/// each is waited for (milliseconds). There is room for `WINDOW_LIMIT` from the beginning. It may
/// have chunks, and so it must be spent.
pub(crate) struct InFlight {
    chunks: Vec<Carried>,
    since: ArrayVec<u64, WINDOW_LIMIT>,
}

impl Model for InFlight {
    ghost use Rattle.std.specs.Prelude.{◌≡◌, ◌≤◌, List, length, vec_capacity};
    ghost use Rattle.fwd_session.specs.declared.limits.TheConstants.{WINDOW_LIMIT};
    ghost use Rattle.fwd_session.specs.Flights.{InFlightChunk, flights_of};

    ghost Value = { List InFlightChunk };

    ghost view = { λ f. flights_of f.chunks.items f.since.items };

    ghost invariant = { λ f. (length f.chunks.items ≡ length f.since.items)
        × (WINDOW_LIMIT ≤ vec_capacity f.chunks) };
}

impl InFlight {
    /// No chunk. The only error is out of memory.
    pub(crate) fn new(alloc: Global) -> Result<Self, AllocError>
        ensures { IfOk result (λ flights. flights ≡ []) }
    {
        Ok(InFlight {
            chunks: Vec::with_capacity(alloc, WINDOW_LIMIT)?,
            since: ArrayVec::new(),
        })
    }

    /// How many chunks there are.
    pub(crate) fn len(&self) -> usize
        ensures { result ≡ length self.now }
    {
        self.chunks.len()
    }

    /// The chunks.
    pub(crate) fn chunks(&self) -> &[Carried]
        ensures { result.now ≡ flight_chunks self.now }
    {
        &self.chunks
    }

    /// Since when the first chunk is waited for, if there is one.
    pub(crate) fn oldest(&self) -> Option<u64>
        ensures { result ≡ first_in (map (λ f. f.since) self.now) }
    {
        self.since.first().copied()
    }

    /// One chunk more, behind the others.
    pub(crate) fn push(&mut self, chunk: Carried, since: u64)
        requires { length self.old < WINDOW_LIMIT }
        ensures { self.new ≡ self.old ++ record { chunk = chunk; since = since } ∷ [] }
    {
        self.chunks.push_reserved(chunk);
        self.since.push(since);
    }

    /// Takes out the chunk at a place.
    pub(crate) fn remove(&mut self, place: usize) -> Carried
        requires { place < length self.old }
        ensures chunk { slice_get (flight_chunks self.old) place ≡ Some result }
        ensures left { self.new ≡ remove self.old place }
    {
        self.since.remove(place);
        self.chunks.remove(place)
    }

    /// The chunks, in the order of their loads.
    pub(crate) fn into_chunks(self) -> Vec<Carried>
        ensures { result.items ≡ flight_chunks self }
    {
        let InFlight { chunks, since: _ } = self;
        chunks
    }
}
