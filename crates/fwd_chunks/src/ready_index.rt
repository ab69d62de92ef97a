//! The keys of chunks by their places.

ghost use Rattle.std.specs.Prelude.{◌≡◌, ◌<◌, ◌≤◌, None, Some, [], length, map, slice_set, IfOk};
ghost use Rattle.fwd_chunks.specs.MinTrees.{first_within};
ghost use Rattle.fwd_chunks.specs.Slots.{present, ready_key, due_key, padded};

use crate::chunk::Chunk;
use crate::chunk_slab::ChunkSlab;
use crate::chunk_state::ChunkState;
use crate::min_tree::MinTree;
use fwd_base::Retry;
use std::alloc::{AllocError, Global};
use std::marker::Model;

/// By a chunk's place, when it may be given and when it began.
#[derive(Drop)]
pub(crate) struct ReadyIndex {
    retry: Retry,
    /// The end of a closed chunk's wait.
    ready: MinTree,
    /// The moment of an open chunk's first entry.
    due: MinTree,
}

impl Model for ReadyIndex {
    ghost use Rattle.fwd_chunks.specs.Slots.{KeyLists};

    ghost Value = { KeyLists };

    ghost view = { λ k. record { retry = k.retry; ready = k.ready; due = k.due } };
}

/// From when on a worker may have the chunk, if it waits for one.
fn ready_key(retry: Retry, chunk: &Chunk) -> Option<u64>
    ensures { result ≡ ready_key retry chunk.now }
{
    match chunk.stage {
        ChunkState::Closed => retry.end(chunk.losses),
        _ => None,
    }
}

/// When the chunk began, if it is open.
fn due_key(chunk: &Chunk) -> Option<u64>
    ensures { result ≡ due_key chunk.now }
{
    match chunk.stage {
        ChunkState::Open => Some(chunk.since),
        _ => None,
    }
}

/// So many keys: those of the chunks that are there, and none behind them.
fn ready_keys(
    alloc: Global,
    retry: Retry,
    slab: &ChunkSlab,
    places: usize,
) -> Result<Vec<Option<u64>>, AllocError>
    requires { length (present slab.now.slots) ≤ places }
    ensures { IfOk result (λ keys.
        keys.items ≡ padded places (map (ready_key retry) (present slab.now.slots))) }
{
    let mut keys = Vec::with_capacity(alloc, places)?;
    for place in 0..slab.len() {
        if let Some(chunk) = slab.get(place) {
            keys.push(ready_key(retry, chunk))?;
        }
    }
    keys.resize(places, None)?;
    Ok(keys)
}

/// So many keys: those of the chunks that are there, and none behind them.
fn due_keys(alloc: Global, slab: &ChunkSlab, places: usize) -> Result<Vec<Option<u64>>, AllocError>
    requires { length (present slab.now.slots) ≤ places }
    ensures { IfOk result (λ keys.
        keys.items ≡ padded places (map due_key (present slab.now.slots))) }
{
    let mut keys = Vec::with_capacity(alloc, places)?;
    for place in 0..slab.len() {
        if let Some(chunk) = slab.get(place) {
            keys.push(due_key(chunk))?;
        }
    }
    keys.resize(places, None)?;
    Ok(keys)
}

impl ReadyIndex {
    /// No places.
    pub(crate) fn new(alloc: Global, retry: Retry) -> Self
        ensures { result ≡ record { retry = retry; ready = []; due = [] } }
    {
        ReadyIndex {
            retry,
            ready: MinTree::new(alloc),
            due: MinTree::new(alloc),
        }
    }

    /// So many places, of which the first are those of the chunks that are there.
    pub(crate) fn of(
        alloc: Global,
        retry: Retry,
        slab: &ChunkSlab,
        places: usize,
    ) -> Result<Self, AllocError>
        requires { length (present slab.now.slots) ≤ places }
        ensures { IfOk result (λ keys. keys ≡ record {
          retry = retry;
          ready = padded places (map (ready_key retry) (present slab.now.slots));
          due = padded places (map due_key (present slab.now.slots));
        }) }
    {
        Ok(ReadyIndex {
            retry,
            ready: MinTree::of(alloc, ready_keys(alloc, retry, slab, places)?)?,
            due: MinTree::of(alloc, due_keys(alloc, slab, places)?)?,
        })
    }

    /// How long chunks wait that were lost.
    pub(crate) fn retry(&self) -> Retry
        ensures { result ≡ self.now.retry }
    {
        self.retry
    }

    /// How many places there are.
    pub(crate) fn places(&self) -> usize
        ensures { result ≡ length self.now.ready }
    {
        self.ready.places()
    }

    /// The chunk stands at the place.
    pub(crate) fn set(&mut self, place: usize, chunk: &Chunk)
        requires ready { place < length self.old.ready }
        requires due { place < length self.old.due }
        ensures { self.new ≡ record {
          retry = self.old.retry;
          ready = slice_set self.old.ready place (ready_key self.old.retry chunk.now);
          due = slice_set self.old.due place (due_key chunk.now);
        } }
    {
        self.ready.set(place, ready_key(self.retry, chunk));
        self.due.set(place, due_key(chunk));
    }

    /// No chunk stands at the place.
    pub(crate) fn clear(&mut self, place: usize)
        requires ready { place < length self.old.ready }
        requires due { place < length self.old.due }
        ensures { self.new ≡ record {
          retry = self.old.retry;
          ready = slice_set self.old.ready place None;
          due = slice_set self.old.due place None;
        } }
    {
        self.ready.set(place, None);
        self.due.set(place, None);
    }

    /// The first place of a chunk that a worker may have at a moment.
    pub(crate) fn first_ready(&self, moment: u64) -> Option<usize>
        ensures { result ≡ first_within moment self.now.ready }
    {
        self.ready.first(moment)
    }

    /// The first place of an open chunk that began at the moment or before.
    pub(crate) fn first_due(&self, moment: u64) -> Option<usize>
        ensures { result ≡ first_within moment self.now.due }
    {
        self.due.first(moment)
    }
}
