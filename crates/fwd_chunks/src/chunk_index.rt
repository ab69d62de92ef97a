//! Chunks by rising number, each found by its number, and the first that is free or due, in the
//! logarithm of their count.

ghost use Rattle.std.specs.Prelude.{
  ◌≡◌,
  ◌<◌,
  ◌≤◌,
  ◌+◌,
  ◌-◌,
  ◌^◌,
  ◌&&◌,
  not,
  None,
  Some,
  [],
  ◌∷◌,
  ◌++◌,
  length,
  filter,
  find,
  option_map,
  option_copied,
  slice_get,
  true,
  IsTrue,
  IsSomeAnd,
  OnOk,
  OnErr,
};
ghost use Rattle.std.specs.List.{AllByRecursion};
ghost use Rattle.fwd_chunks.specs.declared.chunk.Chunk.{Chunk};
ghost use Rattle.fwd_chunks.specs.Cells.{size_of, number_after};
ghost use Rattle.fwd_chunks.specs.Filling.{joined_by, stage_last};
ghost use Rattle.fwd_chunks.specs.Live.{
  is_at,
  is_open,
  is_closed,
  is_due,
  changed,
  staged,
};
ghost use Rattle.fwd_base.specs.Tallies.{live_is_over};
ghost use Rattle.fwd_chunks.specs.Parts.{entries_in};
ghost use Rattle.fwd_chunks.specs.Slots.{
  ChunksRise,
  AreAbove,
  chunk_in,
  began_by,
  appended,
  noted,
};
ghost use Rattle.fwd_chunks.specs.Stored.{put_back};

use crate::chunk::Chunk;
use crate::chunk_slab::ChunkSlab;
use crate::chunk_state::ChunkState;
use crate::entry_range::EntryRange;
use crate::flush::FlushKind;
use crate::ready_index::ReadyIndex;
use fwd_base::Retry;
use std::alloc::{AllocError, Global};
use std::marker::Model;

/// For how many chunks there is room at least. With less, a few chunks that come and go would have
/// the keys made anew for each second one.
const LEAST_HELD: usize = 16;

/// Chunks by rising number, with room for more.
#[derive(Drop)]
pub(crate) struct ChunkIndex {
    slab: ChunkSlab,
    /// By the places of the slab.
    ready_index: ReadyIndex,
    /// The greatest number that a chunk had.
    last: Option<u64>,
}

impl Model for ChunkIndex {
    ghost use Rattle.std.specs.Prelude.{◌-◌, length, min};
    ghost use Rattle.fwd_chunks.specs.Slots.{Held, IsSlotted, present};

    ghost Value = { Held };

    ghost view = { λ s. record {
      retry = s.ready_index.retry;
      chunks = present s.slab.slots;
      last = s.last;
      room = min (length s.ready_index.ready - length s.slab.slots) s.slab.spare;
    } };

    ghost invariant = { λ s. IsSlotted s.slab.slots s.slab.cap s.ready_index s.last };
}

/// Whether a chunk is open, and is not closed as entries go to it.
fn stays_open(chunk: Option<&Chunk>, last: bool) -> bool
    ensures { IsTrue result
        → IsSomeAnd (option_copied chunk.entry) (λ c. is_open c.stage ≡ true) × (last ≡ true) }
{
    match chunk {
        None => false,
        Some(chunk) => last && matches!(chunk.stage, ChunkState::Open),
    }
}

/// The keys at a place are those of the chunk there, if there is one.
fn note(ready_index: &mut ReadyIndex, slab: &ChunkSlab, place: usize)
    requires ready { place < length ready_index.old.ready }
    requires due { place < length ready_index.old.due }
    ensures { ready_index.new
        ≡ noted place (chunk_in (slice_get slab.now.slots place)) ready_index.old }
{
    if let Some(chunk) = slab.get(place) {
        ready_index.set(place, chunk);
    }
}

impl ChunkIndex {
    /// No chunks.
    pub(crate) fn new(alloc: Global, retry: Retry) -> Self
        ensures { result ≡ record { retry = retry; chunks = []; last = None; room = 0 } }
    {
        ChunkIndex {
            slab: ChunkSlab::new(alloc),
            ready_index: ReadyIndex::new(alloc, retry),
            last: None,
        }
    }

    /// The chunks' numbers rise, and 64 bits hold their moments and their count.
    fn is_ordered(&self)
        ensures rise { ChunksRise self.now.chunks }
        ensures timed { AllByRecursion (λ c. c.since < 2 ^ 64) self.now.chunks }
        ensures bound { length self.now.chunks < 2 ^ 64 }
    {
        let _held = self.slab.held(); // for the proof
    }

    /// How many chunks there are.
    pub(crate) fn len(&self) -> usize
        ensures { result ≡ length self.now.chunks }
    {
        self.slab.held()
    }

    /// The greatest number that a chunk had.
    pub(crate) fn last(&self) -> Option<u64>
        ensures { result ≡ self.now.last }
    {
        self.last
    }

    /// The chunk of the number, at once where it lies at the key.
    pub(crate) fn get(&self, number: u64, key: usize) -> Option<&Chunk>
        ensures { option_copied result ≡ find (is_at number) self.now.chunks }
    {
        self.slab.find(number, key)
    }

    /// The first chunk that a worker may have at a moment, and its key.
    pub(crate) fn first_free(&self, moment: u64) -> Option<(&Chunk, usize)>
        ensures { option_map (λ p. p.0.now) result ≡ find (λ c. is_closed c.stage
            && live_is_over self.now.retry.wait self.now.retry.max c.losses moment)
            self.now.chunks }
    {
        let place = self.ready_index.first_ready(moment)?;
        self.slab.keyed(place)
    }

    /// The number of the first open chunk that began at the moment or before, and its key.
    fn first_due(&self, moment: u64) -> Option<(u64, usize)>
        ensures { option_map (λ p. p.0) result ≡ option_map (λ c. c.number)
            (find (began_by moment) self.now.chunks) }
    {
        let place = self.ready_index.first_due(moment)?;
        let (chunk, key) = self.slab.keyed(place)?;
        Some((chunk.number, key))
    }

    /// The chunk of the number stands elsewhere, if there is one. It is found at once where it lies
    /// at the key.
    pub(crate) fn stage(&mut self, number: u64, key: usize, stage: ChunkState)
        ensures { self.new ≡ record self.old {
          chunks = changed (is_at number) (staged stage) self.old.chunks;
        } }
    {
        let Some(place) = self.slab.place_of(number, key) else {
            return;
        };
        self.slab.stage(place, stage);
        note(&mut self.ready_index, &self.slab, place);
    }

    /// The chunk of the number, if there is one, is closed again, with a loss at a moment where it
    /// was lost.
    pub(crate) fn put_back(&mut self, number: u64, key: usize, lost: bool, moment: u64)
        ensures { self.new ≡ record self.old {
          chunks = changed (is_at number) (put_back lost moment) self.old.chunks;
        } }
    {
        let Some(place) = self.slab.place_of(number, key) else {
            return;
        };
        self.slab.put_back(place, lost, moment);
        note(&mut self.ready_index, &self.slab, place);
    }

    /// Entries go to the open chunk of the number, if there is one, and it is closed where others
    /// follow. On an error nothing has changed.
    pub(crate) fn join(
        &mut self,
        number: u64,
        key: usize,
        front: EntryRange<'_>,
        last: bool,
    ) -> Result<(), AllocError>
        requires { (c : Chunk) → find (is_at number) self.old.chunks ≡ Some c
            → size_of c.entries < 2 ^ 32
            → size_of c.entries + size_of (entries_in front) < 2 ^ 32 }
        ensures ok { OnOk result (self.new ≡ record self.old {
          chunks = changed (is_at number)
              (joined_by (entries_in front.entry) (stage_last last)) self.old.chunks;
        }) }
        ensures err { OnErr result (self.new ≡ self.old) }
    {
        let Some(place) = self.slab.place_of(number, key) else {
            return Ok(());
        };
        let stays = stays_open(self.slab.get(place), last);
        self.slab.join(place, front, last)?;
        if !stays {
            note(&mut self.ready_index, &self.slab, place);
        }
        Ok(())
    }

    /// The chunk of the number leaves.
    pub(crate) fn remove(&mut self, number: u64, key: usize) -> Option<Chunk>
        ensures result { result ≡ find (is_at number) self.old.chunks }
        ensures left { self.new ≡ record self.old {
          chunks = filter (λ c. not (is_at number c)) self.old.chunks;
          room = self.new.room;
        } }
    {
        let place = self.slab.place_of(number, key)?;
        let chunk = self.slab.take(place)?;
        self.ready_index.clear(place);
        Some(chunk)
    }

    /// Makes room for so many chunks more. On an error nothing has changed.
    pub(crate) fn reserve(&mut self, alloc: Global, count: usize) -> Result<(), AllocError>
        ensures ok { OnOk result (count ≤ self.new.room) }
        ensures kept { record self.new { room = 0 } ≡ record self.old { room = 0 } }
    {
        self.slab.reserve(count)?;
        if count <= self.ready_index.places() - self.slab.len() {
            return Ok(());
        }
        let needed = self.slab.held().checked_add(count).ok_or(AllocError)?;
        let places = needed.max(LEAST_HELD).checked_mul(2).ok_or(AllocError)?;
        let ready_index = ReadyIndex::of(alloc, self.ready_index.retry(), &self.slab, places)?;
        self.slab.compact(places)?;
        self.ready_index = ready_index;
        Ok(())
    }

    /// A chunk comes behind all others, into room that is there. Answers its key.
    pub(crate) fn push(&mut self, chunk: Chunk) -> usize
        requires room { 0 < self.old.room }
        requires above { number_after 0 self.old.last ≤ chunk.number }
        ensures { self.new ≡ record self.old {
          chunks = self.old.chunks ++ chunk ∷ [];
          last = Some chunk.number;
          room = self.old.room - 1;
        } }
    {
        let number = chunk.number;
        self.ready_index.set(self.slab.len(), &chunk);
        self.last = Some(number);
        self.slab.push(chunk)
    }

    /// Chunks come behind all others, into room that is there. Answers the key of the last.
    pub(crate) fn append(&mut self, fresh: Vec<Chunk>) -> usize
        requires room { length fresh.items ≤ self.old.room }
        requires above { AreAbove self.old.last fresh.items }
        ensures { self.new ≡ appended self.old fresh.items }
    {
        let mut key = 0;
        for chunk in fresh {
            key = self.push(chunk);
        }
        key
    }

    /// Closes the open chunks that began at the moment or before, and answers how many.
    fn close_from(&mut self, moment: u64) -> usize
        ensures count { result
            ≡ length (filter (began_by moment) self.old.chunks) }
        ensures closed { self.new ≡ record self.old {
          chunks = changed (began_by moment) (staged ChunkState.Closed)
              self.old.chunks;
        } }
    {
        let mut count = 0;
        self.is_ordered(); // for the proof
        while let Some((number, key)) = self.first_due(moment) {
            self.is_ordered(); // for the proof
            self.stage(number, key, ChunkState::Closed);
            count += 1;
        }
        count
    }

    /// The number alone of the first open chunk that began at the moment or before.
    fn first_from(&self, moment: u64) -> Option<u64>
        ensures { result ≡ option_map (λ c. c.number) (find (began_by moment) self.now.chunks) }
    {
        let (number, _) = self.first_due(moment)?;
        Some(number)
    }

    /// The number of the first chunk that a flush at a moment closes, if it closes any.
    pub(crate) fn first_closing(&self, kind: FlushKind, interval: u64, moment: u64) -> Option<u64>
        ensures { result ≡ option_map (λ c. c.number)
            (find (is_due kind interval moment) self.now.chunks) }
    {
        self.is_ordered(); // for the proof
        match kind {
            FlushKind::All => self.first_from(u64::MAX),
            FlushKind::Due => match moment.checked_sub(interval) {
                None => None,
                Some(from) => self.first_from(from),
            },
        }
    }

    /// Closes what a flush at a moment closes, and answers how many chunks that are.
    pub(crate) fn flush(&mut self, kind: FlushKind, interval: u64, moment: u64) -> usize
        ensures count { result ≡ length (filter (is_due kind interval moment) self.old.chunks) }
        ensures closed { self.new ≡ record self.old {
          chunks = changed (is_due kind interval moment) (staged ChunkState.Closed) self.old.chunks;
        } }
    {
        self.is_ordered(); // for the proof
        match kind {
            FlushKind::All => self.close_from(u64::MAX),
            FlushKind::Due => match moment.checked_sub(interval) {
                None => 0,
                Some(from) => self.close_from(from),
            },
        }
    }
}
