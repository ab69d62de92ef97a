//! Slots by rising number, each with its chunk until that leaves. A chunk lies at one key of a slab
//! for as long as it is there.

ghost use Rattle.std.specs.Prelude.{
  ◌≡◌,
  ◌<◌,
  ◌≤◌,
  ◌+◌,
  ◌-◌,
  ◌^◌,
  ℕ,
  true,
  [],
  ◌∷◌,
  ◌++◌,
  length,
  filter,
  find,
  position,
  option_map,
  option_copied,
  slice_get,
  Some,
  None,
  IfSome,
  IfNone,
  OnOk,
  OnErr,
};
ghost use Rattle.std.specs.List.{AllByRecursion};
ghost use Rattle.slab.specs.Slab.{get, slab_len};
ghost use Rattle.fwd_chunks.specs.declared.chunk.Chunk.{Chunk};
ghost use Rattle.fwd_chunks.specs.Cells.{size_of};
ghost use Rattle.fwd_chunks.specs.Filling.{joined_by, stage_last};
ghost use Rattle.fwd_chunks.specs.Live.{is_at, staged};
ghost use Rattle.fwd_chunks.specs.Parts.{entries_in};
ghost use Rattle.fwd_chunks.specs.Slabs.{
  AreLinked,
  IsThere,
  StandsAt,
  chunk_of,
  slot_by,
  slots_by,
};
ghost use Rattle.fwd_chunks.specs.Slots.{
  NumbersRise,
  chunk_in,
  is_full,
  is_slot,
  present,
  revised,
  slot_of,
};
ghost use Rattle.fwd_chunks.specs.Stored.{put_back};

use crate::chunk::Chunk;
use crate::chunk_state::{ChunkState, stage_of};
use crate::entry_range::EntryRange;
use fwd_base::Losses;
use slab::Slab;
use std::alloc::{AllocError, Global};
use std::marker::Model;

/// A chunk's number, and its key in the slab.
#[derive(Clone, Copy)]
struct ChunkPlace {
    number: u64,
    key: usize,
}

/// A chunk, and where its place stands.
#[derive(Drop)]
struct KeptChunk {
    chunk: Chunk,
    place: usize,
}

/// Slots by rising number, each with its chunk until that leaves.
#[derive(Drop)]
pub(crate) struct ChunkSlab {
    /// By rising number. A slot is empty once its key has no chunk of its number.
    places: Vec<ChunkPlace>,
    kept: Slab<KeptChunk>,
}

impl Model for ChunkSlab {
    ghost use Rattle.std.specs.Prelude.{◌-◌};
    ghost use Rattle.slab.specs.Slab.{slab_len};
    ghost use Rattle.fwd_chunks.specs.Slabs.{SlabShown, IsSlab, slots_by};

    ghost Value = { SlabShown };

    ghost view = { λ s. record {
      slots = slots_by s.kept s.places.items;
      cap = s.places.cap;
      spare = s.kept.capacity - slab_len s.kept;
    } };

    ghost invariant = { λ s. IsSlab s.places.items s.kept };
}

/// What stands at a place of the list.
fn place_at(places: &[ChunkPlace], place: usize) -> Option<ChunkPlace>
    ensures { result ≡ slice_get places.now place }
{
    places.get(place).copied()
}

/// The key of the chunk that stands at a place, if one does.
fn key_at(places: &[ChunkPlace], kept: &Slab<KeptChunk>, place: usize) -> Option<usize>
    ensures some { IfSome result (λ key. StandsAt places.now kept.now place key) }
    ensures none { IfNone result
        (chunk_in (slice_get (slots_by kept.now places.now) place) ≡ None) }
{
    let ChunkPlace { number, key } = place_at(places, place)?;
    match kept.get(key) {
        Some(kept) if kept.chunk.number == number => Some(key),
        _ => None,
    }
}

/// Whether the place's chunk is there.
fn is_there(kept: &Slab<KeptChunk>, place: ChunkPlace) -> bool
    ensures { result ≡ is_full (slot_by kept.now place) }
{
    match kept.get(place.key) {
        None => false,
        Some(kept) => kept.chunk.number == place.number,
    }
}

/// The places whose chunks left go.
fn compact(places: &mut Vec<ChunkPlace>, kept: &Slab<KeptChunk>)
    ensures items { places.new.items
        ≡ filter (λ p. is_full (slot_by kept.now p)) places.old.items }
    ensures capacity { places.new.cap ≡ places.old.cap }
{
    places.retain(|place| is_there(kept, *place));
}

/// Each chunk is told where its place stands now.
fn link(kept: &mut Slab<KeptChunk>, places: &[ChunkPlace])
    requires full { AllByRecursion (λ p. is_full (slot_by kept.old p) ≡ true) places.now }
    requires there { IsThere places.now kept.old }
    ensures linked { AreLinked places.now kept.new }
    ensures chunks { (key : ℕ)
        → chunk_of (get kept.new key) ≡ chunk_of (get kept.old key) }
    ensures count { slab_len kept.new ≡ slab_len kept.old }
    ensures capacity { kept.new.capacity ≡ kept.old.capacity }
{
    for place in 0..places.len() {
        if let Some(kept) = kept.get_mut(places[place].key) {
            kept.place = place;
        }
    }
}

/// Entries go to a chunk, which is closed where others follow. On an error nothing has changed.
fn join(chunk: &mut Chunk, front: EntryRange<'_>, last: bool) -> Result<(), AllocError>
    requires { size_of chunk.old.entries < 2 ^ 32
        → size_of chunk.old.entries + size_of (entries_in front) < 2 ^ 32 }
    ensures ok { OnOk result (chunk.new
        ≡ joined_by (entries_in front.entry) (stage_last last) chunk.old) }
    ensures err { OnErr result (chunk.new ≡ chunk.old) }
{
    let _size = chunk.entries.size(); // for the proof
    chunk.entries.extend(front)?;
    chunk.stage = stage_of(last);
    Ok(())
}

/// A chunk is closed again, with a loss at a moment where it was lost.
fn put_back(chunk: &mut Chunk, lost: bool, moment: u64)
    ensures { chunk.new ≡ put_back lost moment chunk.old }
{
    if lost {
        chunk.losses = Some(Losses::more(chunk.losses, moment));
    }
    chunk.stage = ChunkState::Closed;
}

impl ChunkSlab {
    /// No slots.
    pub(crate) fn new(alloc: Global) -> Self
        ensures slots { result.slots ≡ [] }
        ensures cap { result.cap ≡ 0 }
        ensures spare { result.spare ≡ 0 }
    {
        ChunkSlab {
            places: Vec::new(alloc),
            kept: Slab::new(alloc),
        }
    }

    /// How many slots there are.
    pub(crate) fn len(&self) -> usize
        ensures { result ≡ length self.now.slots }
    {
        self.places.len()
    }

    /// How many chunks there are.
    pub(crate) fn held(&self) -> usize
        ensures { result ≡ length (present self.now.slots) }
    {
        self.kept.len()
    }

    /// The number of the slot at a place.
    fn number(&self, place: usize) -> u64
        requires { place < length self.now.slots }
        ensures { option_map (λ s. s.number) (slice_get self.now.slots place) ≡ Some result }
    {
        self.places[place].number
    }

    /// The chunk at a place, and its key.
    pub(crate) fn keyed(&self, place: usize) -> Option<(&Chunk, usize)>
        ensures { option_map (λ p. p.0.now) result ≡ chunk_in (slice_get self.now.slots place) }
    {
        let key = key_at(&self.places, &self.kept, place)?;
        let kept = self.kept.get(key)?;
        Some((&kept.chunk, key))
    }

    /// The chunk at a place.
    pub(crate) fn get(&self, place: usize) -> Option<&Chunk>
        ensures { option_copied result ≡ chunk_in (slice_get self.now.slots place) }
    {
        let (chunk, _) = self.keyed(place)?;
        Some(chunk)
    }

    /// The place of the number's slot, by halves.
    fn search(&self, number: u64) -> Option<usize>
        requires { NumbersRise self.now.slots }
        ensures { result ≡ position (is_slot number) self.now.slots }
    {
        let mut low = 0;
        let mut high = self.len();
        while low < high {
            let middle = low + (high - low) / 2;
            let here = self.number(middle);
            if here == number {
                return Some(middle);
            }
            if here < number {
                low = middle + 1;
            } else {
                high = middle;
            }
        }
        None
    }

    /// The place of the number's slot, at once where the chunk lies at the key. A wrong key costs a
    /// search and nothing else.
    pub(crate) fn place_of(&self, number: u64, key: usize) -> Option<usize>
        requires { NumbersRise self.now.slots }
        ensures { result ≡ position (is_slot number) self.now.slots }
    {
        match self.kept.get(key) {
            Some(kept) if kept.chunk.number == number => Some(kept.place),
            _ => self.search(number),
        }
    }

    /// The chunk of the number, at once where it lies at the key.
    pub(crate) fn find(&self, number: u64, key: usize) -> Option<&Chunk>
        requires { NumbersRise self.now.slots }
        ensures { option_copied result ≡ find (is_at number) (present self.now.slots) }
    {
        match self.kept.get(key) {
            Some(kept) if kept.chunk.number == number => Some(&kept.chunk),
            _ => self.get(self.search(number)?),
        }
    }

    /// The chunk at a place stands elsewhere, if there is one.
    pub(crate) fn stage(&mut self, place: usize, stage: ChunkState)
        requires { NumbersRise self.old.slots }
        ensures { self.new ≡ record self.old {
          slots = revised place (option_map (staged stage)) self.old.slots;
        } }
    {
        let Some(key) = key_at(&self.places, &self.kept, place) else {
            return;
        };
        if let Some(kept) = self.kept.get_mut(key) {
            kept.chunk.stage = stage;
        }
    }

    /// The chunk at a place, if there is one, is closed again, with a loss at a moment where it was
    /// lost.
    pub(crate) fn put_back(&mut self, place: usize, lost: bool, moment: u64)
        requires { NumbersRise self.old.slots }
        ensures { self.new ≡ record self.old {
          slots = revised place (option_map (put_back lost moment)) self.old.slots;
        } }
    {
        let Some(key) = key_at(&self.places, &self.kept, place) else {
            return;
        };
        if let Some(kept) = self.kept.get_mut(key) {
            put_back(&mut kept.chunk, lost, moment);
        }
    }

    /// Entries go to the chunk at a place, if there is one, which is closed where others follow. On
    /// an error nothing has changed.
    pub(crate) fn join(
        &mut self,
        place: usize,
        front: EntryRange<'_>,
        last: bool,
    ) -> Result<(), AllocError>
        requires rising { NumbersRise self.old.slots }
        requires fits { (c : Chunk) → chunk_in (slice_get self.old.slots place) ≡ Some c
            → size_of c.entries < 2 ^ 32
            → size_of c.entries + size_of (entries_in front) < 2 ^ 32 }
        ensures ok { OnOk result (self.new ≡ record self.old {
          slots = revised place
              (option_map (joined_by (entries_in front.entry) (stage_last last))) self.old.slots;
        }) }
        ensures err { OnErr result (self.new ≡ self.old) }
    {
        let Some(key) = key_at(&self.places, &self.kept, place) else {
            return Ok(());
        };
        if let Some(kept) = self.kept.get_mut(key) {
            join(&mut kept.chunk, front, last)?;
        }
        Ok(())
    }

    /// The chunk at a place leaves.
    pub(crate) fn take(&mut self, place: usize) -> Option<Chunk>
        requires { NumbersRise self.old.slots }
        ensures result { result ≡ chunk_in (slice_get self.old.slots place) }
        ensures slots { self.new.slots ≡ revised place (λ c. None) self.old.slots }
        ensures cap { self.new.cap ≡ self.old.cap }
        ensures spare { self.old.spare ≤ self.new.spare }
    {
        let key = key_at(&self.places, &self.kept, place)?;
        let kept = self.kept.try_remove(key)?;
        Some(kept.chunk)
    }

    /// A chunk comes behind all others, into room that is there. Answers its key.
    pub(crate) fn push(&mut self, chunk: Chunk) -> usize
        requires cap { length self.old.slots < self.old.cap }
        requires spare { 0 < self.old.spare }
        requires above { AllByRecursion (λ s. s.number < chunk.number) self.old.slots }
        ensures { self.new ≡ record {
          slots = self.old.slots ++ slot_of chunk ∷ [];
          cap = self.old.cap;
          spare = self.old.spare - 1;
        } }
    {
        let number = chunk.number;
        let place = self.places.len();
        let key = self.kept.insert_reserved(KeptChunk { chunk, place });
        self.places.push_reserved(ChunkPlace { number, key });
        key
    }

    /// Makes room for so many chunks more. On an error nothing has changed.
    pub(crate) fn reserve(&mut self, count: usize) -> Result<(), AllocError>
        ensures ok { OnOk result (count ≤ self.new.spare) }
        ensures spare { self.old.spare ≤ self.new.spare }
        ensures kept { self.new ≡ record self.old { spare = self.new.spare } }
    {
        let held = self.kept.len();
        if count <= self.kept.capacity() - held {
            return Ok(());
        }
        // Half as many more: a chunk's slot is large.
        self.kept.reserve_exact(count.max(held / 2))
    }

    /// Empty slots leave, and there is room for so many slots in all. On an error nothing has
    /// changed.
    pub(crate) fn compact(&mut self, count: usize) -> Result<(), AllocError>
        ensures ok { OnOk result (self.new.slots ≡ filter is_full self.old.slots) }
        ensures cap { OnOk result (count ≤ self.new.cap) }
        ensures spare { self.new.spare ≡ self.old.spare }
        ensures err { OnErr result (self.new ≡ self.old) }
    {
        self.places
            .reserve(count.saturating_sub(self.places.len()))?;
        compact(&mut self.places, &self.kept);
        link(&mut self.kept, &self.places);
        Ok(())
    }
}
