//! The frame of a chunk, on its way to the link.

ghost use Rattle.std.specs.Prelude.{
  ◌≡◌,
  ◌≤◌,
  ◌<◌,
  ◌^◌,
  ◌==◌,
  ◌++◌,
  length,
  take,
  drop,
  min,
  IfOk,
  IfSome,
};
ghost use Rattle.fwd_chunks.specs.Lending.{IsLent};
ghost use Rattle.fwd_session.specs.ServerAcks.{frame_of};

use crate::written::Written;
use fwd_chunks::{Carried, SendCursor, WriteSlices};
use fwd_modes::{write_chunk_head, write_chunk_tail};
use std::alloc::{AllocError, Global};
use std::marker::Model;

/// The frame of a chunk (Forward Protocol Specification v1, "PackedForward Mode"), with its size
/// and its name, of which some bytes are sent. Its entries lie in memory that is shared.
#[derive(Drop)]
pub(crate) struct Frame {
    head: Written,
    entries: SendCursor,
    tail: Written,
}

impl Model for Frame {
    ghost use Rattle.std.specs.Prelude.{List, ℕ, ◌++◌};

    ghost Value = { List ℕ };

    ghost view = { λ f. f.head ++ f.entries ++ f.tail };
}

impl Frame {
    /// The frame of a chunk. The only error is out of memory.
    #[tactic(auto, unfolding(fwd_modes::specs::Frames::chunk_frame))]
    pub(crate) fn of(alloc: Global, chunk: &Carried) -> Result<Self, AllocError>
        ensures { IfOk result (λ frame. frame ≡ frame_of chunk.now) }
    {
        let body = chunk.body();
        let head = write_chunk_head(alloc, chunk.tag(), body.size() as u32)?;
        let tail = write_chunk_tail(alloc, chunk.count() as u64, chunk.name())?;
        Ok(Frame {
            head: Written::of(head),
            entries: body.unsent()?,
            tail: Written::of(tail),
        })
    }

    /// How many bytes are left, if 64 bits count them.
    pub(crate) fn len(&self) -> Option<u64>
        ensures { IfSome result (λ len. len ≡ length self.now) }
    {
        let around = self.head.as_slice().len() as u64 + self.tail.as_slice().len() as u64;
        around.checked_add(self.entries.len() as u64)
    }

    /// Whether no byte is left.
    pub(crate) fn is_empty(&self) -> bool
        ensures { result ≡ (length self.now == 0) }
    {
        self.front().is_empty()
    }

    /// The first of the bytes that are left, as far as they lie in one piece: none only where none
    /// is left.
    pub(crate) fn front(&self) -> &[u8]
        ensures front { result.now ≡ take (length result.now) self.now }
        ensures some { 0 < length self.now → 0 < length result.now }
    {
        if !self.head.as_slice().is_empty() {
            return self.head.as_slice();
        }
        if !self.entries.is_empty() {
            return self.entries.front();
        }
        self.tail.as_slice()
    }

    /// So many bytes more are sent, or as many as its next part has: how many.
    pub(crate) fn step(&mut self, count: usize) -> usize
        requires some { 0 < count }
        requires within { count ≤ length self.old }
        ensures sent { self.new ≡ drop result self.old }
        ensures some { 0 < result }
        ensures within { result ≤ count }
    {
        let head = self.head.as_slice().len();
        if head > 0 {
            let step = count.min(head);
            self.head.advance(step);
            return step;
        }
        let entries = self.entries.len();
        if entries > 0 {
            let step = count.min(entries);
            self.entries.advance(step);
            return step;
        }
        self.tail.advance(count);
        count
    }

    /// Copies the first of the bytes that are left into a room, as many as fit: how many.
    pub(crate) fn gather(&self, room: &mut [u8]) -> usize
        ensures count { result ≡ min (length room.old) (length self.now) }
        ensures bytes { room.new ≡ take result self.now ++ drop result room.old }
    {
        let head = self.head.gather(room);
        let entries = head + self.entries.gather(room.split_at_mut(head).1);
        entries + self.tail.gather(room.split_at_mut(entries).1)
    }

    /// Puts the pieces that the bytes that are left lie in behind others, as many as there is place
    /// for.
    pub(crate) fn lend<'a>(&'a self, pieces: WriteSlices<'a>) -> WriteSlices<'a>
        ensures { IsLent pieces.entry self.now result }
    {
        let head = pieces.with(self.head.as_slice());
        let entries = self.entries.lend(head);
        entries.with(self.tail.as_slice())
    }
}
